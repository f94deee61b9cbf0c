// What the files of a job add up to, the cut, and the recipes that hold an unread file.
ghost use Rattle.std.specs.Prelude.{◌≡◌, ◌*◌, ◌≤◌, length, ltb};
ghost use Rattle.rules.specs.Job.{view_of, read_in, recipes};
ghost use Rattle.rules.specs.Split.{count_on, is_cut, «cut», unread_recipes};
ghost use Rattle.job.specs.Given.{the_files, the_marked};
ghost use Rattle.job.specs.Parts.{of_marks};
ghost use Rattle.job.specs.Totals.{weight_of, with_file, Within, Added};

use crate::Job;
use crate::book::Book;
use crate::holds::tally;
use crate::numbers::{bit, entry_at, when};
use crate::placed::Placed;

// W, smax, |A|, the least and the most that it can be, and the numbers of free and of unread files.
#[derive(Clone, Copy, Default)]
pub(crate) struct Totals {
    pub weight: u64,
    pub largest: u64,
    pub size: u64,
    pub least: u64,
    pub most: u64,
    pub free: u64,
    pub unread: usize,
}

// What a survey answers: W, the tolerance, |A|, the cut, and the numbers of unread files and of recipes that hold one.
#[derive(Clone, Copy)]
pub struct Surveyed {
    pub weight: u64,
    pub tolerance: u64,
    pub size: u64,
    pub cut: usize,
    pub unread: usize,
    pub holding: usize,
}

// What a file weighs: its size, and nothing where it is unread.
fn weight_of(size: u16, mark: u16) -> u64
    ensures { (result ≡ weight_of size mark) × (result ≤ size) }
{
    when(mark != 2, size as u64)
}

// The totals with one file more.
fn with_file(t: Totals, size: u16, side: u16, mark: u16) -> Totals
    requires { Within t (Job.MOST_FILES * 65535) }
    ensures { result ≡ with_file t size side mark }
{
    let s = weight_of(size, mark);
    let free = mark == 0;
    let in_a = side == 0;
    Totals {
        weight: t.weight + s,
        largest: t.largest.max(when(free, size as u64)),
        size: t.size + when(in_a, s),
        least: t.least + when(!free && in_a, s),
        most: t.most + when(free || in_a, s),
        free: t.free + when(free, 1),
        unread: t.unread + bit(mark == 2),
    }
}

// The totals of all files, by one walk over the three lists.
pub(crate) fn totals_of(placed: Placed) -> Totals
    ensures { Added (the_files placed.entry.book placed.entry.sides.now) (length placed.entry.book.files.sizes.now) result }
{
    let files = placed.book.files;
    let mut t = Totals::default();
    for f in 0..files.sizes.len() {
        t = with_file(t, files.sizes[f], placed.sides[f], files.marks[f]);
    }
    t
}

// How many numbers of the list have u at their place in the table: a recipe's files on a side, a file's recipes with a count. A place beyond the table reads as 0.
pub fn count_on(list: &[u16], table: &[u16], u: u16) -> usize
    ensures { result ≡ count_on table.now u list.now }
{
    list.iter()
        .filter(|x| entry_at(table, **x as usize) == u)
        .count()
}

// Recipe j has readable files in both vaults; they are two at least.
#[tactic(auto, using(crate::proofs::Walking::cut_tally))]
fn is_cut(placed: Placed, j: usize) -> bool
    ensures { result ≡ is_cut placed.entry.sides.now (read_in (of_marks placed.entry.book.files.marks.now) (view_of placed.entry.book.recipes.bounds.now placed.entry.book.recipes.pins.now j)) }
{
    let t = tally(
        placed.book.recipes.view(j),
        placed.sides,
        placed.book.files.marks,
    );
    0 < t.a.all && 0 < t.b.all
}

// The number of cut recipes.
pub(crate) fn cut(placed: Placed) -> usize
    ensures { result ≡ «cut» placed.entry.sides.now (recipes (the_marked placed.entry.book)) }
{
    (0..placed.book.recipes.count())
        .filter(|j| is_cut(placed, *j))
        .count()
}

// Recipe j holds an unread file.
fn holds_unread(book: Book, j: usize) -> bool
    ensures { result ≡ ltb 0 (count_on book.entry.files.marks.now 2 (view_of book.entry.recipes.bounds.now book.entry.recipes.pins.now j)) }
{
    0 < count_on(book.recipes.view(j), book.files.marks, 2)
}

// How many recipes hold an unread file: none where there is none, and no recipe is walked.
pub(crate) fn holding(book: Book, unread: usize) -> usize
    requires { unread ≡ 0 → unread_recipes (the_marked book) ≡ 0 }
    ensures { result ≡ unread_recipes (the_marked book.entry) }
{
    if unread == 0 {
        return 0;
    }
    (0..book.recipes.count())
        .filter(|j| holds_unread(book, *j))
        .count()
}
