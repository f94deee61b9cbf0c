// After the last move: moves taken back, each by turning its file over, and entries made zero.
// A move that the list of moves does not have is taken for one of file 0, as an entry that is not there reads as 0; zeros are put only
// where the list has all the places, and a list without them stays as it is.
ghost use Rattle.std.specs.Prelude.{◌≡◌, ◌-◌, ◌*◌, pos};
ghost use Rattle.rules.specs.Split.{side_of};
ghost use Rattle.rules.specs.Job.{scratch_numbers};
ghost use Rattle.job.specs.Given.{SameMoves, SameScans};
ghost use Rattle.tables.specs.Clearing.{cleared_in};
ghost use Rattle.tables.specs.Ending.{turned, back_to};

use super::zones::Extent;
use job::{Moves, Scans, entry_at};

// `fill` would ask here that the element's `clone` cannot fail, and gives the same value.
pub(crate) fn clear<T: Copy>(list: &mut [T], from: usize, to: usize, zero: T)
    ensures { list.new ≡ cleared_in from to zero list.old }
{
    if from <= to && to <= list.len() {
        for entry in &mut list[from..to] {
            *entry = zero;
        }
    }
}

// The moves from best on are taken back; the move lists end in zeros, from the number of moves up to the number of files.
pub fn end_moves(sides: &mut [u16], moves: &mut Moves, best: usize, made: usize, files: usize)
    ensures same_lists { SameMoves moves.old moves.new }
    ensures sides_after { sides.new ≡ back_to moves.old.tried.now best (made - best) sides.old }
    ensures moves_after { (moves.new.tried.now ≡ cleared_in made files 0 moves.old.tried.now) × (moves.new.gained.now ≡ cleared_in made files (pos 0) moves.old.gained.now) × (moves.new.cuts.now ≡ cleared_in made files 0 moves.old.cuts.now) × (moves.new.ends.now ≡ cleared_in made files 0 moves.old.ends.now) }
{
    take_back(sides, moves, best, made);
    clear(moves.tried, made, files, 0);
    clear(moves.gained, made, files, 0);
    clear(moves.cuts, made, files, 0);
    clear(moves.ends, made, files, 0);
}

// The scan lists end in zeros, from the number of scans up to 4N; all numbers of the scratch that the edition and the extent ask are zeros.
pub fn end_scans(
    scans: &mut Scans,
    scratch: &mut [u16],
    listed: usize,
    edition: u16,
    extent: Extent,
)
    ensures same_lists { SameScans scans.old scans.new }
    ensures scans_after { (scans.new.recipes.now ≡ cleared_in listed (4 * extent.recipes) 0 scans.old.recipes.now) × (scans.new.kinds.now ≡ cleared_in listed (4 * extent.recipes) 0 scans.old.kinds.now) }
    ensures scratch_after { scratch.new ≡ cleared_in 0 (scratch_numbers edition extent.pins extent.files extent.recipes) 0 scratch.old }
{
    let most = extent.scans();
    clear(scans.recipes, listed, most, 0);
    clear(scans.kinds, listed, most, 0);
    clear(scratch, 0, extent.numbers_for(edition), 0);
}

// The file changes its side; the side it is on now.
pub fn turn(sides: &mut [u16], f: usize) -> u16
    ensures { (result ≡ 1 - side_of sides.old f) × (sides.new ≡ turned sides.old f) }
{
    if sides.len() <= f {
        return 1;
    }
    let side = 1u16.saturating_sub(sides[f]);
    sides[f] = side;
    side
}

// The moves from best up to moves taken back, the latest first.
fn take_back(sides: &mut [u16], moves: &Moves, best: usize, made: usize)
    ensures { sides.new ≡ back_to moves.now.tried.now best (made - best) sides.old }
{
    for k in (best..made).rev() {
        turn(sides, entry_at(moves.tried, k) as usize);
    }
}
