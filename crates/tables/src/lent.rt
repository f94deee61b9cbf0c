// The lengths of the lent lists.
ghost use Rattle.tables.specs.LentFits.{WordFor};

use super::zones::Extent;
use job::{Book, Job};

// How long the lists of moves and of scans are: lengths and not lists, since the balancing has no move lists.
#[derive(Clone, Copy)]
pub struct ListLengths {
    pub tried: usize,
    pub gained: usize,
    pub cuts: usize,
    pub ends: usize,
    pub recipes: usize,
    pub kinds: usize,
}

// Gains exactly C; each move list at least C, each scan list at least 4N, scratch at least its numbers by the edition.
// A job over its most is refused before this is looked at.
pub(crate) fn lists_fit(
    edition: u16,
    book: Book,
    gains: usize,
    scratch: usize,
    lists: ListLengths,
) -> bool
    ensures { WordFor book.entry edition gains scratch lists result }
{
    let c = book.files.sizes.len();
    let n = book.recipes.count();
    let p = book.recipes.pins.len();
    if Job::MOST_FILES < c || Job::MOST_RECIPES < n || Job::MOST_PINS < p {
        return false;
    }
    let extent = Extent {
        files: c as u16,
        recipes: n as u16,
        pins: p as u16,
    };
    let scans = extent.scans();
    gains == c
        && c <= lists.tried
        && c <= lists.gained
        && c <= lists.cuts
        && c <= lists.ends
        && scans <= lists.recipes
        && scans <= lists.kinds
        && extent.numbers_for(edition) <= scratch
}
