// A stored job's bytes in, the stored job with other sides out: those after its run, or those of a balanced start. What is refused is told in a line.
#![tactic(auto)]

ghost use Rattle.std.specs.Prelude.{◌≡◌, true, [], ◌+◌, ◌*◌, ◌≤◌, length, IfOk};
ghost use Rattle.rules.specs.Numbers.{verdict_of};
ghost use Rattle.rules.specs.Cases.{as_handed, balance_numbers};
ghost use Rattle.rules.specs.Report.{all_lent};
ghost use Rattle.rules.specs.Stored.{block_count};
ghost use Rattle.rules.specs.Writing.{header_for, check_written, resettles, handing_of, hand_into};
ghost use Rattle.rules.specs.Balance.{balances};
ghost use Rattle.job.specs.Given.{the_limits, the_job, contents};
ghost use Rattle.report.specs.Lending.{Answered, BothLendable};
ghost use Rattle.stored.specs.Steps.{job_taken};
ghost use Rattle.hander.specs.Handing.{refused_out, made_out, run_out, balanced_out, balancing_out, Made};

use job::{Book, Files, Job, Lent, Moves, Scans};
use layout::INPUT_BYTES;
use rules::{Balanced, HandedOut, Refusal, Verdict};
use stored::TakenUp;

// More than the lines take, words and numbers.
const LINES_BYTES: usize = 256;

// No stored job is longer, its lines behind it.
pub const ROOM_BYTES: usize = INPUT_BYTES + LINES_BYTES;

// What is refused is told alone, for standard error.
fn hand_refusal(refused: Refusal, room: &mut [u8]) -> Result<HandedOut, Refusal>
    ensures room_after { handing_of (as_handed result) room.new ≡ hand_into (refused_out (verdict_of refused)) room.old }
    ensures answered { Answered LINES_BYTES result room.old }
{
    let none = Files {
        sizes: &[],
        marks: &[],
    };
    let errors = report::balanced(Err(Verdict::from(refused)), none, &[], room)?;
    Ok(HandedOut { output: 0, errors })
}

// The blocks of a job that passes 1 to 6, for standard output; `bytes` is how many they have.
fn hand_blocks(
    job: Job,
    book: Book,
    sides: &[u16],
    room: &mut [u8],
    bytes: usize,
) -> Result<HandedOut, Refusal>
    requires can_be_written { (check_written the_limits (the_job job book sides.now) true).number ≡ 0 }
    requires blocks { bytes ≡ 512 * block_count (header_for (the_job job book sides.now)) }
    ensures room_after { handing_of (as_handed result) room.new ≡ hand_into (made_out (the_job job book.entry sides.now) []) room.old }
    ensures answered { Answered bytes result room.old }
{
    if room.len() < bytes {
        return Err(Refusal::WrongLength);
    }
    writer::write(job, book, sides, &mut room[..bytes])?;
    Ok(HandedOut {
        output: bytes,
        errors: 0,
    })
}

// The job as it is stored after its run by an edition of the choice, with the lists that a run is lent; `bytes` is how many its blocks have.
fn resettle_run(
    edition: u16,
    job: Job,
    book: Book,
    sides: &mut [u16],
    lent: &mut Lent,
    room: &mut [u8],
    bytes: usize,
) -> Result<HandedOut, Refusal>
    requires zeros_lent { contents lent.old ≡ all_lent the_limits (the_job job book sides.old) }
    requires blocks { (bytes ≡ 512 * block_count (header_for (the_job job book sides.old))) × (bytes ≤ INPUT_BYTES) }
    ensures room_after { handing_of (as_handed result) room.new ≡ hand_into (run_out edition the_limits (the_job job book.entry sides.old)) room.old }
    ensures answered { Answered INPUT_BYTES result room.old }
{
    match runs::run(edition, job, book, sides, lent) {
        Ok(_) => hand_blocks(job, book, sides, room, bytes),
        Err(refusal) => hand_refusal(refusal, room),
    }
}

// The same of a job that was taken up, with lists of the hander's own.
fn resettle_job(
    edition: u16,
    taken: &TakenUp,
    room: &mut [u8],
    bytes: usize,
) -> Result<HandedOut, Refusal>
    requires blocks { (bytes ≡ 512 * block_count (header_for (job_taken taken.now))) × (bytes ≤ INPUT_BYTES) }
    ensures room_after { handing_of (as_handed result) room.new ≡ hand_into (run_out edition the_limits (job_taken taken.now)) room.old }
    ensures answered { Answered INPUT_BYTES result room.old }
{
    let c = taken.header.files as usize;
    let mut sides = taken.sides;
    // They stand here, and in teller: an array behind a reference, as of a struct of them, is lent as no list.
    let mut gains = [0i32; Job::MOST_FILES];
    let mut tried = [0u16; Job::MOST_FILES];
    let mut gained = [0i32; Job::MOST_FILES];
    let mut cuts = [0u16; Job::MOST_FILES];
    let mut ends = [0u16; Job::MOST_FILES];
    let mut recipes = [0u16; tables::MOST_SCANS];
    let mut kinds = [0u16; tables::MOST_SCANS];
    let mut scratch = [0u16; tables::MOST_NUMBERS];
    let mut lent = Lent {
        gains: &mut gains[..c],
        moves: Moves {
            tried: &mut tried,
            gained: &mut gained,
            cuts: &mut cuts,
            ends: &mut ends,
        },
        scans: Scans {
            recipes: &mut recipes,
            kinds: &mut kinds,
        },
        scratch: &mut scratch,
    };
    resettle_run(
        edition,
        taken.job(),
        taken.book(),
        &mut sides[..c],
        &mut lent,
        room,
        bytes,
    )
}

// The stored job with the sides after its run by an edition, or a refusal's line: what the program `resettle` writes to standard output and to standard error, for every input.
pub fn resettle(edition: u16, input: &[u8], room: &mut [u8]) -> Result<HandedOut, Refusal>
    ensures room_after { handing_of (as_handed result) room.new ≡ hand_into (resettles edition the_limits input.now) room.old }
    ensures answered { Answered INPUT_BYTES result room.old × IfOk result (λ handed. BothLendable handed.output handed.errors room.new) }
{
    match stored::take_up(input) {
        Ok(taken) => resettle_job(edition, &taken, room, input.len()),
        Err(refusal) => hand_refusal(refusal, room),
    }
}

// The blocks of a job that was balanced, for standard output, and behind them its lines, for standard error; `bytes` is how many the blocks have.
// The lines come first, so that no byte is written where there is no room for them.
fn hand_made(
    answer: Balanced,
    job: Job,
    book: Book,
    sides: &[u16],
    room: &mut [u8],
    bytes: usize,
) -> Result<HandedOut, Refusal>
    requires { Made the_limits (balance_numbers answer) (the_job job book sides.now) bytes }
    ensures room_after { handing_of (as_handed result) room.new ≡ hand_into (balanced_out (balance_numbers answer) (the_job job book.entry sides.now)) room.old }
    ensures answered { Answered (bytes + LINES_BYTES) result room.old }
{
    if room.len() < bytes {
        return Err(Refusal::WrongLength);
    }
    let errors = report::balanced(Ok(answer), book.files, sides, &mut room[bytes..])?;
    writer::write(job, book, sides, &mut room[..bytes])?;
    Ok(HandedOut {
        output: bytes,
        errors,
    })
}

// The job balanced and handed out, with the scratch that the balancing is lent.
fn balance_with(
    job: Job,
    book: Book,
    sides: &mut [u16],
    scratch: &mut [u16],
    room: &mut [u8],
    bytes: usize,
) -> Result<HandedOut, Refusal>
    requires zeros_lent { scratch.old ≡ (all_lent the_limits (the_job job book sides.old)).scratch }
    requires blocks { (bytes ≡ 512 * block_count (header_for (the_job job book sides.old))) × (bytes ≤ INPUT_BYTES) }
    ensures room_after { handing_of (as_handed result) room.new ≡ hand_into (balancing_out the_limits (the_job job book.entry sides.old)) room.old }
    ensures answered { Answered ROOM_BYTES result room.old }
{
    match split::balance(job, book, sides, scratch) {
        Ok(answer) => hand_made(answer, job, book, sides, room, bytes),
        Err(refusal) => hand_refusal(refusal, room),
    }
}

// The same of a job that was taken up, with a scratch of the hander's own.
fn balance_job(taken: &TakenUp, room: &mut [u8], bytes: usize) -> Result<HandedOut, Refusal>
    requires blocks { (bytes ≡ 512 * block_count (header_for (job_taken taken.now))) × (bytes ≤ INPUT_BYTES) }
    ensures room_after { handing_of (as_handed result) room.new ≡ hand_into (balancing_out the_limits (job_taken taken.now)) room.old }
    ensures answered { Answered ROOM_BYTES result room.old }
{
    let c = taken.header.files as usize;
    let mut sides = taken.sides;
    let mut scratch = [0u16; tables::MOST_NUMBERS];
    balance_with(
        taken.job(),
        taken.book(),
        &mut sides[..c],
        &mut scratch,
        room,
        bytes,
    )
}

// The stored job with a balanced start and the lines that tell of it, or a refusal's line: what the program `balance` writes to standard output and to standard error, for
// every input.
pub fn balance(input: &[u8], room: &mut [u8]) -> Result<HandedOut, Refusal>
    ensures room_after { handing_of (as_handed result) room.new ≡ hand_into (balances the_limits input.now) room.old }
    ensures answered { Answered ROOM_BYTES result room.old × IfOk result (λ handed. BothLendable handed.output handed.errors room.new) }
{
    match stored::take_up(input) {
        Ok(taken) => balance_job(&taken, room, input.len()),
        Err(refusal) => hand_refusal(refusal, room),
    }
}
