// The files: their sizes, sides and marks.
ghost use Rattle.std.specs.Prelude.{◌||◌, ◌≡◌, length, ltb, eqb};
ghost use Rattle.rules.specs.Check.{bad_file};
ghost use Rattle.job.specs.Given.{the_files};
ghost use Rattle.job.specs.Pins.{IsFirst};

use crate::placed::Placed;

fn is_bad_file(size: u16, side: u16, mark: u16) -> bool
    ensures { result ≡ (eqb size 0 || ltb 1 side || ltb 2 mark) }
{
    size == 0 || 1 < side || 2 < mark
}

// The lowest bad file.
pub(crate) fn first_bad_file(placed: Placed) -> Option<usize>
    ensures { IsFirst (bad_file (the_files placed.entry.book placed.entry.sides.now)) (length placed.entry.book.files.sizes.now) result }
{
    let files = placed.book.files;
    (0..files.sizes.len()).find(|f| is_bad_file(files.sizes[*f], placed.sides[*f], files.marks[*f]))
}
