// A stored job's bytes in, the bytes that tell of it out: the night's report, or the trace of one pass, by an edition of the choice.
#![tactic(auto)]

mod arguments;
mod told;

ghost use Rattle.std.specs.Prelude.{◌≡◌, IfOk};
ghost use Rattle.rules.specs.Cases.{as_printed};
ghost use Rattle.rules.specs.Check.{check_edition};
ghost use Rattle.rules.specs.Report.{refusal, «printed», into_room, prints};
ghost use Rattle.rules.specs.Trace.{traces};
ghost use Rattle.job.specs.Given.{the_limits};
ghost use Rattle.report.specs.Lending.{Answered, Lendable};

pub use arguments::edition_named;
use job::Job;
use rules::Refusal;
use told::{Report, Trace, print_refusal, tell};

// More than the lines of the figures take, words and numbers, in a report and in a trace.
const REPORT_FIGURES_BYTES: usize = 256;

const TRACE_FIGURES_BYTES: usize = 512;

// More than a file takes in a trace: the line of its move, its gain and its letter.
const FILE_BYTES: usize = 128;

// More than the line of a scan takes; a recipe is scanned at most four times.
const SCAN_BYTES: usize = 64;

// No report is longer: the lines of the figures, and a letter for each file.
pub const TEXT_BYTES: usize = REPORT_FIGURES_BYTES + Job::MOST_FILES;

// No trace is longer.
pub const TRACE_BYTES: usize = TRACE_FIGURES_BYTES
    + FILE_BYTES * Job::MOST_FILES
    + 4 * SCAN_BYTES * Job::MOST_RECIPES;

// The line of an argument that names no edition there is.
pub fn refuse_edition(out: &mut [u8]) -> Result<usize, Refusal>
    ensures out_after { «printed» (as_printed result) out.new ≡ into_room (refusal (check_edition 0)) out.old }
    ensures answered { Answered TEXT_BYTES result out.old × IfOk result (λ n. Lendable n out.new) }
{
    print_refusal(Refusal::NoEdition, out)
}

// The night's report of a stored job by an edition: what the program `edition` prints where its argument names that edition, and `night` by edition 1, for every input.
pub fn night(edition: u16, input: &[u8], out: &mut [u8]) -> Result<usize, Refusal>
    ensures out_after { «printed» (as_printed result) out.new ≡ into_room (prints edition the_limits input.now) out.old }
    ensures answered { Answered TEXT_BYTES result out.old × IfOk result (λ n. Lendable n out.new) }
{
    tell::<Report>(edition, input, out)
}

// The trace of one pass by an edition over a stored job: what the program `trace` prints, for every input.
pub fn trace(edition: u16, input: &[u8], out: &mut [u8]) -> Result<usize, Refusal>
    ensures out_after { «printed» (as_printed result) out.new ≡ into_room (traces edition the_limits input.now) out.old }
    ensures answered { Answered TRACE_BYTES result out.old × IfOk result (λ n. Lendable n out.new) }
{
    tell::<Trace>(edition, input, out)
}
