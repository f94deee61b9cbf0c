// The answer of a run so far, and whether another pass follows.
ghost use Rattle.std.specs.Prelude.{◌≡◌, ◌≤◌, Err};
ghost use Rattle.rules.specs.Cases.{pass_numbers, run_numbers, run_told};
ghost use Rattle.rules.specs.Run.{no_run_figures};
ghost use Rattle.runs.specs.Running.{plus_of, after_first, after_more, follows, SumsFit};

use rules::{Passed, Ran, Verdict};

// A refused run: all other numbers are 0.
pub fn refused(verdict: Verdict) -> Result<Ran, Verdict>
    ensures answer { result ≡ Err verdict }
    ensures numbers { run_told result ≡ no_run_figures verdict }
{
    Err(verdict)
}

// The first pass's figures as they are.
pub(crate) fn with_first(first: Passed) -> Ran
    ensures { run_numbers result ≡ after_first (pass_numbers first) }
{
    Ran {
        figures: first,
        passes: 1,
        settled: first.cut == first.before,
    }
}

// One pass more in the sums; what could not be read is no sum.
#[tactic(auto, unfolding(crate::specs::Running::plus_of))]
fn plus(sum: Passed, last: Passed) -> Passed
    requires { SumsFit (plus_of (pass_numbers sum) (pass_numbers last)) }
    ensures { pass_numbers result ≡ plus_of (pass_numbers sum) (pass_numbers last) }
{
    Passed {
        cut: last.cut,
        size: last.size,
        tried: sum.tried + last.tried,
        kept: sum.kept + last.kept,
        scans: sum.scans + last.scans,
        visits: sum.visits + last.visits,
        ..sum
    }
}

// The figures of a later pass added.
pub(crate) fn with_pass(sum: Ran, last: Passed) -> Ran
    requires sums_fit { SumsFit (plus_of (pass_numbers sum.figures) (pass_numbers last)) }
    requires passes_bound { sum.passes ≤ 65536 }
    ensures { run_numbers result ≡ after_more (run_numbers sum) (pass_numbers last) }
{
    Ran {
        figures: plus(sum.figures, last),
        passes: sum.passes + 1,
        settled: last.cut == last.before,
    }
}

// The last did not leave the cut equal, and the cap is not reached.
pub(crate) fn goes_on(cap: u16, sum: Ran) -> bool
    ensures { result ≡ follows cap sum.passes sum.settled }
{
    !sum.settled && (cap == 0 || sum.passes < cap as u64)
}
