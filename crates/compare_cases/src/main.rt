// Cases on standard input: a heading, or a call of the comparing: two stored jobs, and the length of the lent list.
//
// The lines of a call: `done` and the count, each record's four numbers, and whether the records
// beyond are as before the call; or the refusal with its job and its count, and whether all are.
#![tactic(auto)]

use comparer::NotCompared;
use frames::Numbers;
use rules::{Difference, Verdict};
use std::io;
use std::io::{Read, Write};

// The most bytes of a stored job.
const MOST_BYTES: usize = 20000;

// The longest list that is lent, and what a record of it is before the call.
const MOST_LIST: usize = comparer::MOST_DIFFERENCES + 9;

const FILLED: Difference = Difference {
    what: 165,
    number: 165,
    old: 165,
    new: 165,
};

// ---- Writing

fn show_record<W: Write>(out: &mut W, d: &Difference) -> io::Result<()> {
    writeln!(out, "{} {} {} {}", d.what, d.number, d.old, d.new)
}

// Whether each of these records is as before the call.
fn show_kept<W: Write>(out: &mut W, list: &[Difference]) -> io::Result<()> {
    if list.iter().all(|d| *d == FILLED) {
        return out.write_all(b"kept\n");
    }
    out.write_all(b"changed\n")
}

fn show_done<W: Write>(out: &mut W, count: usize, list: &[Difference]) -> io::Result<()> {
    writeln!(out, "done {count}")?;
    let told = count.min(list.len());
    for d in &list[..told] {
        show_record(out, d)?;
    }
    show_kept(out, &list[told..])
}

fn show_refused<W: Write>(
    out: &mut W,
    refused: NotCompared,
    list: &[Difference],
) -> io::Result<()> {
    match refused {
        NotCompared::Refused { job, refusal } => {
            let v = Verdict::from(refusal);
            write!(out, "refused {} {} {} 0 ", job, v.number, v.place)?;
        }
        NotCompared::TooShort { needed } => write!(out, "refused 0 30 0 {needed} ")?,
    }
    show_kept(out, list)
}

// ---- A call of the comparing

// What a call answers, and the list after it, of which the first n records are lent, and no other may change.
fn compared(
    old: &[u8],
    new: &[u8],
    n: usize,
) -> (Result<usize, NotCompared>, [Difference; MOST_LIST]) {
    let mut list = [FILLED; MOST_LIST];
    let lent = n.min(MOST_LIST);
    let answer = comparer::compare(old, new, &mut list[..lent]);
    (answer, list)
}

fn show_call<R: Read, W: Write>(reader: &mut R, out: &mut W) -> io::Result<()> {
    let mut old = [0u8; MOST_BYTES];
    let came = frames::take(reader, &mut old)?;
    let mut new = [0u8; MOST_BYTES];
    let got = frames::take(reader, &mut new)?;
    let length = Numbers::<1>::take(reader)?.list;
    match compared(&old[..came], &new[..got], length[0] as usize) {
        (Ok(count), list) => show_done(out, count, &list),
        (Err(refused), list) => show_refused(out, refused, &list),
    }
}

// ---- The cases

fn show_case<R: Read, W: Write>(reader: &mut R, out: &mut W, kind: u8) -> io::Result<()> {
    match kind {
        b'c' => show_call(reader, out),
        _ => frames::show_heading(reader, out),
    }
}

fn main(rt: HostRuntime) -> io::Result<()> {
    frames::show_each(
        &mut rt.reader(),
        &mut io::writer(&rt),
        |reader, out, kind| { show_case(reader, out, kind) },
    )
}
