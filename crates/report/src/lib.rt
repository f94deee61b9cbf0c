// Answers as the exact bytes that a program prints.
#![tactic(auto)]

mod balance;
mod differences;
mod figures;
mod moves;
mod pass;
mod refused;
mod split;
mod text;
mod told;

ghost use Rattle.std.specs.Prelude.{◌≡◌, length};
ghost use Rattle.rules.specs.Cases.{as_printed, pass_told};
ghost use Rattle.rules.specs.Report.{printed};
ghost use Rattle.job.specs.Given.{the_limits};
ghost use Rattle.report.specs.Bytes.{figure_bytes, report_bytes};
ghost use Rattle.report.specs.Cases.{listed, run_telling, balance_telling, pass_telling, differences_telling, differences_told};
ghost use Rattle.report.specs.Comparison.{EnoughLines};
ghost use Rattle.report.specs.Steps.{Enough};
ghost use Rattle.report.specs.Tracing.{EnoughTold};

use balance::BalanceLines;
use differences::DifferenceLines;
use figures::RunLines;
use job::{Files, Job};
use pass::PassLines;
use refused::{tell_refusal, tell_refused_job};
use rules::{Balanced, Passed, Ran, Refusal, Verdict};
use split::Split;
use told::tell;

// No two jobs have more differences: seven of the header, three of each file, one of each recipe.
pub const MOST_DIFFERENCES: usize = 7 + 3 * Job::MOST_FILES + Job::MOST_RECIPES;

// What a pass leaves in its lists, to be told.
#[derive(Clone, Copy)]
pub struct Listing<'a> {
    pub gains: &'a [i32],
    pub tried: &'a [u16],
    pub gained: &'a [i32],
    pub cuts: &'a [u16],
    pub ends: &'a [u16],
    pub recipes: &'a [u16],
    pub kinds: &'a [u16],
}

// A refusal in a comparison, and the job that it is of; by number and place, since any are told.
#[derive(Clone, Copy)]
pub struct RefusedJob {
    pub job: usize,
    pub verdict: Verdict,
}

// The report of a run's answer, refused or not, as bytes in the lent room; the answer and the room are those of the telling, for every input.
pub fn report(
    answer: Result<Ran, Verdict>,
    files: Files,
    sides: &[u16],
    out: &mut [u8],
) -> Result<usize, Refusal>
    ensures out_after { printed (as_printed result) out.new ≡ run_telling the_limits files.entry.sizes.now files.entry.marks.now answer sides.now out.old }
    ensures enough { Enough (report_bytes (length sides.now)) (as_printed result).verdict files.entry.sizes.now sides.now files.entry.marks.now out.old }
{
    match answer {
        Ok(ran) => {
            let split = Split::of(files, sides)?;
            tell(&RunLines { ran, split }, sides, out)
        }
        Err(verdict) => tell_refusal(verdict, out),
    }
}

// The same of a balancing's answer: its lines tell of no file's side.
pub fn balanced(
    answer: Result<Balanced, Verdict>,
    files: Files,
    sides: &[u16],
    out: &mut [u8],
) -> Result<usize, Refusal>
    ensures out_after { printed (as_printed result) out.new ≡ balance_telling the_limits files.entry.sizes.now files.entry.marks.now answer sides.now out.old }
    ensures enough { Enough figure_bytes (as_printed result).verdict files.entry.sizes.now sides.now files.entry.marks.now out.old }
{
    match answer {
        Ok(balanced) => {
            let split = Split::of(files, sides)?;
            tell(&BalanceLines { balanced, split }, sides, out)
        }
        Err(verdict) => tell_refusal(verdict, out),
    }
}

// The trace of a pass's answer, refused or not, as bytes in the lent room; the answer and the room are those of the telling, for every input.
pub fn trace(
    answer: Result<Passed, Verdict>,
    files: Files,
    sides: &[u16],
    lists: Listing,
    out: &mut [u8],
) -> Result<usize, Refusal>
    ensures out_after { printed (as_printed result) out.new ≡ pass_telling the_limits files.entry.sizes.now files.entry.marks.now answer sides.now (listed lists.entry) out.old }
    ensures enough_told { EnoughTold (as_printed result).verdict files.entry.sizes.now (pass_told answer) sides.now files.entry.marks.now (listed lists.entry) out.old }
{
    match answer {
        Ok(passed) => {
            let split = Split::of(files, sides)?;
            let lines = PassLines::of(passed, split, lists)?;
            tell(&lines, sides, out)
        }
        Err(verdict) => tell_refusal(verdict, out),
    }
}

// A comparison's answer told: a line for each record, which stands in the numbers, four to a record, or the refusal's line. The answer and the room are those of the
// telling, for every input.
pub fn comparison(
    answer: Result<usize, RefusedJob>,
    numbers: &[u16],
    out: &mut [u8],
) -> Result<usize, Refusal>
    ensures out_after { printed (as_printed result) out.new ≡ differences_telling the_limits answer numbers.now out.old }
    ensures enough_lines { EnoughLines (as_printed result).verdict (differences_told answer) numbers.now out.old }
{
    match answer {
        Ok(count) => {
            let lines = DifferenceLines::of(count, numbers)?;
            tell(&lines, &[], out)
        }
        Err(refused) => tell_refused_job(refused, out),
    }
}
