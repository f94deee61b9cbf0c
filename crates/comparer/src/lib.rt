// Two stored jobs' bytes in, their differences out: as records in a lent list, or as the bytes that a program writes.
#![tactic(auto)]

mod files;
mod header;
mod notes;
mod recipes;

ghost use Rattle.std.specs.Prelude.{◌≡◌, ◌+◌, ◌*◌, ◌≤◌, length, IfOk};
ghost use Rattle.rules.specs.Cases.{as_printed};
ghost use Rattle.rules.specs.Lists.{onto};
ghost use Rattle.rules.specs.Report.{«printed», into_room};
ghost use Rattle.rules.specs.Stored.{job_of};
ghost use Rattle.rules.specs.Compare.{differences, comparing_of, comparing, compares};
ghost use Rattle.job.specs.Given.{the_limits};
ghost use Rattle.stored.specs.Steps.{job_taken};
ghost use Rattle.report.specs.Comparison.{record_at, records_in};
ghost use Rattle.report.specs.Lending.{Answered, Lendable};
ghost use Rattle.comparer.specs.Cases.{as_compared};
ghost use Rattle.comparer.specs.Finding.{Noted, as_found, answer_of};

use notes::Notes;
use report::RefusedJob;
use rules::{Difference, Refusal, Verdict};
use stored::TakenUp;

// A list of so many records is never too short.
pub const MOST_DIFFERENCES: usize = report::MOST_DIFFERENCES;

// Four numbers to a record.
const NUMBERS: usize = 4 * MOST_DIFFERENCES;

// More than the line of a record takes, and than the line of a refusal.
const LINE_BYTES: usize = 128;

// No text is longer: a line for each record, or a refusal.
pub const TEXT_BYTES: usize = LINE_BYTES * (MOST_DIFFERENCES + 1);

// Why two stored jobs are not compared: one of them, 1 or 2, is refused; or 30, the list is too short for so many records.
#[derive(Clone, Copy, Debug, PartialEq, Eq)]
pub enum NotCompared {
    Refused { job: usize, refusal: Refusal },
    TooShort { needed: usize },
}

// The differences of two jobs, put into the numbers: the header's, then file by file, then recipe by recipe; how many there are.
fn note_jobs(old: &TakenUp, new: &TakenUp, numbers: &mut [u16]) -> usize
    requires { NUMBERS ≤ length numbers.old }
    ensures noted { Noted 0 numbers.old (differences (job_taken old.now) (job_taken new.now)) result numbers.new }
    ensures few { result ≤ MOST_DIFFERENCES }
{
    let mut notes = Notes { numbers, count: 0 };
    notes.header(old.header, new.header);
    notes.files(old, new);
    notes.recipes(old, new);
    notes.count
}

// The differences of two stored jobs, put into the numbers, and how many they are; or a refusal and its job, 1 or 2, job 1's first.
fn find(old: &[u8], new: &[u8], numbers: &mut [u16]) -> Result<usize, (usize, Refusal)>
    requires { NUMBERS ≤ length numbers.old }
    ensures answer { as_found result ≡ answer_of the_limits old.now new.now }
    ensures records { IfOk result (λ n. records_in n numbers.new ≡ differences (job_of old.now) (job_of new.now)) }
    ensures few { IfOk result (λ n. n ≤ MOST_DIFFERENCES) }
{
    let first = stored::take_up(old).map_err(|refusal| (1, refusal))?;
    let second = stored::take_up(new).map_err(|refusal| (2, refusal))?;
    Ok(note_jobs(&first, &second, numbers))
}

// Record i of the numbers.
fn record_at(numbers: &[u16], i: usize) -> Difference
    requires { 4 * (i + 1) ≤ length numbers.now }
    ensures { result ≡ record_at numbers.now i }
{
    let at = 4 * i;
    Difference {
        what: numbers[at],
        number: numbers[at + 1],
        old: numbers[at + 2],
        new: numbers[at + 3],
    }
}

// The first n records of the numbers, at the start of the list.
fn store(list: &mut [Difference], numbers: &[u16], n: usize)
    requires { (n ≤ length list.old) × (4 * n ≤ length numbers.now) }
    ensures { list.new ≡ onto (records_in n numbers.now) list.old }
{
    for i in 0..n {
        list[i] = record_at(numbers, i);
    }
}

// The differences of two stored jobs, as records at the start of the lent list; the answer and the list are those of the comparing, for every input.
pub fn compare<'o, 'n, 'l>(
    old: &'o [u8],
    new: &'n [u8],
    list: &'l mut [Difference],
) -> Result<usize, NotCompared>
    ensures { comparing_of (as_compared result) list.new ≡ comparing the_limits old.now new.now list.old }
{
    let mut numbers = [0u16; NUMBERS];
    let count = find(old, new, &mut numbers).map_err(|(job, refusal)| NotCompared::Refused {
        job,
        refusal,
    })?;
    if list.len() < count {
        return Err(NotCompared::TooShort { needed: count });
    }
    store(list, &numbers, count);
    Ok(count)
}

// The lines of two stored jobs' differences, or of a refusal: what the program `compare` writes, for every two inputs.
pub fn tell(old: &[u8], new: &[u8], out: &mut [u8]) -> Result<usize, Refusal>
    ensures out_after { «printed» (as_printed result) out.new ≡ into_room (compares the_limits old.now new.now) out.old }
    ensures answered { Answered TEXT_BYTES result out.old × IfOk result (λ n. Lendable n out.new) }
{
    let mut numbers = [0u16; NUMBERS];
    let found = find(old, new, &mut numbers).map_err(|(job, refusal)| RefusedJob {
        job,
        verdict: Verdict::from(refusal),
    });
    report::comparison(found, &numbers, out)
}
