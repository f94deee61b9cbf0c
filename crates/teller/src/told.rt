// What is told of a stored job: the report of its run, or the trace of one pass. Reading it and lending the lists is the same for both.
ghost use Rattle.std.specs.Prelude.{◌≡◌, ℕ, ◌≤◌, List, length, IfOk};
ghost use Rattle.std.proofs.Common.{rules};
ghost use Rattle.rules.specs.Job.{Job as Whole};
ghost use Rattle.rules.specs.Numbers.{verdict_of};
ghost use Rattle.rules.specs.Cases.{as_printed};
ghost use Rattle.rules.specs.Report.{refusal, «printed», into_room, all_lent};
ghost use Rattle.job.specs.Given.{the_limits, the_job, contents};
ghost use Rattle.rules.specs.Trace.{listing};
ghost use Rattle.report.specs.Cases.{listed};
ghost use Rattle.report.specs.Lending.{Answered, Lendable};
ghost use Rattle.stored.specs.Steps.{job_taken};
ghost use Rattle.teller.specs.Telling.{run_report, pass_trace, told_of};

use crate::{TEXT_BYTES, TRACE_BYTES};
use job::{Book, Job, Lent, Moves, Scans};
use report::Listing;
use rules::{Refusal, Verdict, numbered};
use stored::TakenUp;

// What is refused is told in a line.
pub(crate) fn print_refusal(refused: Refusal, out: &mut [u8]) -> Result<usize, Refusal>
    ensures out_after { «printed» (as_printed result) out.new ≡ into_room (refusal (verdict_of refused)) out.old }
    ensures answered { Answered TEXT_BYTES result out.old × IfOk result (λ n. Lendable n out.new) }
{
    let none = job::Files {
        sizes: &[],
        marks: &[],
    };
    report::report(Err(Verdict::from(refused)), none, &[], out)
}

pub(crate) trait Telling {
    ghost use Rattle.teller.specs.declared.TheConstants.{TEXT_BYTES};

    // What is told of a job by an edition, and how much room is always enough for it.
    ghost text: { ℕ → Whole → List ℕ };

    ghost room: { ℕ };

    fn tell(
        edition: u16,
        job: Job,
        book: Book,
        sides: &mut [u16],
        lent: &mut Lent,
        out: &mut [u8],
    ) -> Result<usize, Refusal>
        requires files { length book.files.sizes.now ≤ Job.MOST_FILES }
        requires each_file { (length sides.old ≡ length book.files.sizes.now) × (length book.files.marks.now ≡ length book.files.sizes.now) }
        requires zeros_lent { contents lent.old ≡ all_lent the_limits (the_job job book sides.old) }
        ensures out_after { «printed» (as_printed result) out.new ≡ into_room (text edition (the_job job book.entry sides.old)) out.old }
        ensures answered { Answered room result out.old };

    // It is enough for a refusal's line too.
    ghost roomy: { TEXT_BYTES ≤ room };
}

pub(crate) struct Report;

impl Telling for Report {
    ghost use Rattle.teller.specs.declared.TheConstants.{TEXT_BYTES};

    ghost text = { λ edition job. run_report edition the_limits job };

    ghost room = { TEXT_BYTES };

    ghost roomy = { Prim.search rules };

    fn tell(
        edition: u16,
        job: Job,
        book: Book,
        sides: &mut [u16],
        lent: &mut Lent,
        out: &mut [u8],
    ) -> Result<usize, Refusal> {
        let answer = runs::run(edition, job, book, sides, lent);
        report::report(numbered(answer), book.files, sides, out)
    }
}

// The lists that a pass has left.
fn listing<'a>(lent: &'a Lent<'a>) -> Listing<'a>
    ensures { listed result ≡ listing (contents lent.now) }
{
    let moves = &lent.moves;
    let scans = &lent.scans;
    Listing {
        gains: lent.gains,
        tried: moves.tried,
        gained: moves.gained,
        cuts: moves.cuts,
        ends: moves.ends,
        recipes: scans.recipes,
        kinds: scans.kinds,
    }
}

pub(crate) struct Trace;

impl Telling for Trace {
    ghost use Rattle.teller.specs.declared.TheConstants.{TRACE_BYTES};

    ghost text = { λ edition job. pass_trace edition the_limits job };

    ghost room = { TRACE_BYTES };

    ghost roomy = { Prim.search rules };

    fn tell(
        edition: u16,
        job: Job,
        book: Book,
        sides: &mut [u16],
        lent: &mut Lent,
        out: &mut [u8],
    ) -> Result<usize, Refusal> {
        let answer = split::pass_once(edition, job, book, sides, lent);
        let lists = listing(lent);
        report::trace(numbered(answer), book.files, sides, lists, out)
    }
}

// Of a job that was taken up, with lists of the teller's own.
fn tell_taken<T: Telling>(edition: u16, taken: &TakenUp, out: &mut [u8]) -> Result<usize, Refusal>
    ensures out_after { «printed» (as_printed result) out.new ≡ into_room (T.text edition (job_taken taken.now)) out.old }
    ensures answered { Answered T.room result out.old }
{
    let c = taken.header.files as usize;
    let mut sides = taken.sides;
    // They stand here, and in hander: an array behind a reference, as of a struct of them, is lent as no list.
    let mut gains = [0i32; Job::MOST_FILES];
    let mut tried = [0u16; Job::MOST_FILES];
    let mut gained = [0i32; Job::MOST_FILES];
    let mut cuts = [0u16; Job::MOST_FILES];
    let mut ends = [0u16; Job::MOST_FILES];
    let mut recipes = [0u16; tables::MOST_SCANS];
    let mut kinds = [0u16; tables::MOST_SCANS];
    let mut scratch = [0u16; tables::MOST_NUMBERS];
    let mut lent = Lent {
        gains: &mut gains[..c],
        moves: Moves {
            tried: &mut tried,
            gained: &mut gained,
            cuts: &mut cuts,
            ends: &mut ends,
        },
        scans: Scans {
            recipes: &mut recipes,
            kinds: &mut kinds,
        },
        scratch: &mut scratch,
    };
    T::tell(
        edition,
        taken.job(),
        taken.book(),
        &mut sides[..c],
        &mut lent,
        out,
    )
}

// Of a stored job: what reading refuses is told in a line.
pub(crate) fn tell<T: Telling>(edition: u16, input: &[u8], out: &mut [u8]) -> Result<usize, Refusal>
    ensures out_after { «printed» (as_printed result) out.new ≡ into_room (told_of (T.text edition) the_limits input.now) out.old }
    ensures answered { Answered T.room result out.old × IfOk result (λ n. Lendable n out.new) }
{
    match stored::take_up(input) {
        Ok(taken) => tell_taken::<T>(edition, &taken, out),
        Err(refusal) => print_refusal(refusal, out),
    }
}
