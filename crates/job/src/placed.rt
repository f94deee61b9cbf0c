// A book with the sides of its files.
ghost use Rattle.std.specs.Prelude.{◌≡◌, ◌≤◌, ◌<◌, length};
ghost use Rattle.job.specs.declared.TheConstants.Job.{MOST_FILES};

use crate::book::Book;

// 1 to 3 are past: the files are not too many, each has a side and a mark, and there is a recipe.
#[derive(Clone, Copy)]
pub(crate) struct Placed<'a> {
    pub book: Book<'a>,
    pub sides: &'a [u16],
    ghost few_files: { length book.files.sizes.now ≤ MOST_FILES },
    ghost sides_long: { length sides.now ≡ length book.files.sizes.now },
    ghost marks_long: { length book.files.marks.now ≡ length book.files.sizes.now },
    ghost some_recipe: { 1 < length book.recipes.bounds.now },
}
