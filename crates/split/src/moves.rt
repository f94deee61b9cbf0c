// A move: its file is turned over, locked and its recipes treated.
ghost use Rattle.std.specs.Prelude.{◌≡◌, ◌+◌, ◌≤◌, ◌<◌, ◌^◌, length};
ghost use Rattle.rules.proofs.Signed.{up, down};
ghost use Rattle.job.specs.Given.{SameScans};
ghost use Rattle.tables.specs.Zones.{counts_at};
ghost use Rattle.tables.specs.Ending.{turned};
ghost use Rattle.split.specs.Scanning.{treated};
ghost use Rattle.split.specs.Moving.{cut_by, way_to, Locked, shift_of, treat_from};
ghost use Rattle.split.specs.Movable.{Shiftable, Movable};

use super::from_job::extent_of;
use super::progress::Progress;
use super::scan::{Way, treat_all};
use choice::{Standing, size_after};
use job::{Book, Scans};
use tables::{Extent, turn};

// The cut less a gain.
fn cut_after(cut: usize, gain: i32) -> usize
    requires { (up gain ≤ cut) × (cut + down gain < 2 ^ 32) }
    ensures { result ≡ cut_by cut gain }
{
    let after = (cut as i64) - (gain as i64);
    after as usize
}

// The way of a move to this side.
#[tactic(auto, unfolding(crate::specs::Moving::way_to))]
fn way_to(extent: Extent, side: u16) -> Way
    requires { side ≤ 1 }
    ensures { result ≡ way_to extent.files extent.recipes extent.pins side }
{
    Way {
        side,
        files: extent.files as usize,
        recipes: extent.recipes as usize,
        there: extent.side_at(side),
        left: extent.side_at(1 - side),
    }
}

// Where a part of the scratch begins and ends, such as a file's cells.
#[derive(Clone, Copy)]
pub(crate) struct Span {
    pub from: usize,
    pub to: usize,
}

// The file is locked; the span of its cells.
fn lock(scratch: &mut [u16], extent: Extent, f: usize) -> Span
    requires { (f < extent.files) × (counts_at extent.files extent.pins ≤ length scratch.old) }
    ensures { Locked extent.files extent.pins f scratch.old scratch.new result.from result.to }
{
    let zones = extent.zones();
    let from = zones.cells + scratch[zones.starts + f] as usize;
    let to = zones.cells + scratch[zones.starts + f + 1] as usize;
    scratch[f] = 1;
    Span { from, to }
}

// |A| and the cut after the move of file f.
fn shift(standing: Standing, f: usize, p: Progress) -> Progress
    requires { Shiftable standing.sizes.now standing.sides.now standing.gains.now f p }
    ensures { result ≡ shift_of standing.entry.sizes.now standing.entry.sides.now standing.entry.gains.now f p }
{
    let size = size_after(p.size as u32, standing.sides[f], standing.sizes[f]);
    let cut = cut_after(p.cut, standing.gains[f]);
    p.shifted(size, cut)
}

// The file is turned over and locked, and its recipes are treated. The lists lent come one by one: the balancing has no move lists to make a `Lent` of.
pub(crate) fn treat_move(
    book: Book,
    sides: &mut [u16],
    gains: &mut [i32],
    scans: &mut Scans,
    scratch: &mut [u16],
    f: usize,
    p: Progress,
) -> Progress
    requires { let before = treated scratch.old gains.old scans.old.recipes.now scans.old.kinds.now p in
        Movable book.files.sizes.now book.recipes.bounds.now book.recipes.pins.now f sides.old before }
    ensures same_lists { SameScans scans.old scans.new }
    ensures sides_after { sides.new ≡ turned sides.old f }
    ensures treated_after { let before = treated scratch.old gains.old scans.old.recipes.now scans.old.kinds.now p in
        treated scratch.new gains.new scans.new.recipes.now scans.new.kinds.now result
        ≡ treat_from book.entry.files.sizes.now book.entry.recipes.bounds.now book.entry.recipes.pins.now f sides.old before }
{
    let standing = Standing {
        sizes: book.files.sizes,
        sides,
        gains,
    };
    let q = shift(standing, f, p);
    let side = turn(sides, f);
    let extent = extent_of(book);
    let way = way_to(extent, side);
    let cells = lock(scratch, extent, f);
    treat_all(gains, scans, scratch, sides, book.recipes, cells, way, q)
}
