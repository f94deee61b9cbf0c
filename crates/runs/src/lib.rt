// A run of passes.
#![tactic(auto)]

mod sums;

ghost use Rattle.std.specs.Prelude.{◌≡◌};
ghost use Rattle.rules.specs.Cases.{as_run_figures};
ghost use Rattle.rules.specs.Run.{ended_of, run_ends};
ghost use Rattle.job.specs.Given.{the_limits, the_job, contents, SameLists};

use job::{Book, Job, Lent};
use rules::{Ran, Refusal};
pub use sums::refused;
use sums::{goes_on, with_first, with_pass};

// Passes by an edition of the choice follow one another until one leaves the cut equal or the cap is reached, lent what one pass is. Only the first can be refused.
pub fn run(
    edition: u16,
    job: Job,
    book: Book,
    sides: &mut [u16],
    lent: &mut Lent,
) -> Result<Ran, Refusal>
    ensures same_lists { SameLists lent.old lent.new }
    ensures value { ended_of (as_run_figures result) sides.new (contents lent.new) ≡ run_ends edition the_limits (the_job job book.entry sides.old) (contents lent.old) }
{
    let mut sum = with_first(split::pass_once(edition, job, book, sides, lent)?);
    // No walk: how many passes there are is known only once the last is made.
    while goes_on(job.cap, sum) {
        let last = split::pass_once(edition, job, book, sides, lent)?;
        sum = with_pass(sum, last);
    }
    Ok(sum)
}
