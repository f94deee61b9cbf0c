// The lists that a pass works on: checked and laid out before the first move, a file turned over, moves taken back and the lists ended in zeros.
// Sides, marks and editions are document 01's numbers, as the lists and the callers have them.
#![tactic(auto)]

mod cells;
mod counts;
mod ending;
mod lent;
mod sound_job;
mod start;
mod zones;

ghost use Rattle.std.specs.Prelude.{◌-◌, length};
ghost use Rattle.job.specs.Given.{the_limits, the_job};
ghost use Rattle.job.specs.Survey.{as_survey};
ghost use Rattle.tables.specs.LentFits.{fits_of};
ghost use Rattle.tables.specs.LayingOut.{LaysOut};

pub use ending::{end_moves, end_scans, turn};
use job::{Book, Job, Surveyed};
pub use lent::ListLengths;
use lent::lists_fit;
use rules::Refusal;
use sound_job::SoundJob;
use start::prepare;
pub use zones::{Extent, MOST_NUMBERS, MOST_SCANS, Zones};

// The check of a pass by an edition or of the balancing, with the lengths of the lent lists under 3; where it lets through, cells, locks and counts are laid out in the
// scratch, and the gains are the starting ones. Of the move lists and scan lists only their lengths are told. `balancing` is the word that `LaysOut` takes.
pub fn lay_out(
    edition: u16,
    job: Job,
    book: Book,
    sides: &[u16],
    gains: &mut [i32],
    scratch: &mut [u16],
    lists: ListLengths,
    balancing: bool,
) -> Result<Surveyed, Refusal>
    ensures { LaysOut balancing the_limits (the_job job book.entry sides.now) (fits_of edition (length book.entry.files.sizes.now) (length book.entry.recipes.bounds.now - 1) (length book.entry.recipes.pins.now) (length gains.old) (length scratch.old) lists) gains.old scratch.old gains.new scratch.new (as_survey result) }
{
    let fit = lists_fit(edition, book, gains.len(), scratch.len(), lists);
    let surveyed = job::survey(job, book, sides, fit, balancing)?;
    let sound = SoundJob {
        sides,
        marks: book.files.marks,
        recipes: book.recipes,
    };
    prepare(gains, scratch, sound);
    Ok(surveyed)
}
