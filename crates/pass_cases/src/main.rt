// Cases on standard input: a heading, or a call of a pass or a run with all the lists that it is lent.
//
// The lines of a call: its figures, and of a run the passes and whether it settled; the sides; the gain list; the four move lists; the two scan
// lists; the scratch. Of a run that is shown in short only the figures, the sides, the gain list and the first move list. The line of a list: how many entries it
// has, then the entries; of the scratch, for each stretch of equal numbers how many they are and the number.
#![tactic(auto)]

ghost use Rattle.std.specs.Prelude.{◌≤◌, ◌<◌, length};

use frames::Numbers;
use job::{Book, Files, Job, Lent, Moves, Recipes, Scans};
use rules::{Passed, Ran, Refusal, Verdict};
use std::io;
use std::io::{Read, Write};

// Room for one number more than the longest list of a job may have.
const MOST: usize = Job::MOST_PINS + 1;

// Room for some numbers more than the largest job asks.
const MOST_MOVES: usize = Job::MOST_FILES + 16;

const MOST_SCANS: usize = tables::MOST_SCANS + 16;

const MOST_SCRATCH: usize = tables::MOST_NUMBERS + 16;

// What a case asks for.
#[derive(Clone, Copy, PartialEq, Eq)]
enum Asked {
    Pass,
    Run,
    RunInShort,
}

// ---- Writing

// How many entries of the list are equal to its first, from there on.
fn stretch(list: &[u16]) -> usize
    requires { 0 < length list.now }
    ensures { (0 < result) × (result ≤ length list.now) }
{
    let x = list[0];
    list.iter().position(|y| *y != x).unwrap_or(list.len())
}

fn show_scratch<W: Write>(out: &mut W, list: &[u16]) -> io::Result<()> {
    write!(out, "{}", list.len())?;
    let mut rest = list;
    // No walk by an index: a stretch is as long as it is.
    while !rest.is_empty() {
        let n = stretch(rest);
        write!(out, " {} {}", n, rest[0])?;
        rest = &rest[n..];
    }
    out.write_all(b"\n")
}

// A refusal's number and place; of what is done 0 and 0. All other numbers of a refused answer are 0.
fn show_verdict<W: Write>(out: &mut W, refused: Option<Refusal>) -> io::Result<()> {
    let v = refused.map(Verdict::from).unwrap_or_default();
    write!(out, "{} {}", v.number, v.place)
}

fn show_figures<W: Write>(out: &mut W, f: Passed) -> io::Result<()> {
    write!(out, " {} {} {}", f.before, f.cut, f.size)?;
    write!(out, " {} {} {} {}", f.tried, f.kept, f.scans, f.visits)?;
    write!(out, " {} {}", f.unread, f.holding)
}

fn show_passed<W: Write>(out: &mut W, answer: Result<Passed, Refusal>) -> io::Result<()> {
    show_verdict(out, answer.err())?;
    show_figures(out, answer.unwrap_or_default())?;
    out.write_all(b"\n")
}

fn show_ran<W: Write>(out: &mut W, answer: Result<Ran, Refusal>) -> io::Result<()> {
    show_verdict(out, answer.err())?;
    let ran = answer.unwrap_or_default();
    show_figures(out, ran.figures)?;
    writeln!(out, " {} {}", ran.passes, ran.settled as u64)
}

fn show_rest<W: Write>(out: &mut W, lent: &Lent) -> io::Result<()> {
    frames::show_list(out, lent.moves.gained)?;
    frames::show_list(out, lent.moves.cuts)?;
    frames::show_list(out, lent.moves.ends)?;
    frames::show_list(out, lent.scans.recipes)?;
    frames::show_list(out, lent.scans.kinds)?;
    show_scratch(out, lent.scratch)
}

// ---- Asking

fn call<W: Write>(
    out: &mut W,
    asked: Asked,
    edition: u16,
    job: Job,
    book: Book,
    sides: &mut [u16],
    lent: &mut Lent,
) -> io::Result<()> {
    match asked {
        Asked::Pass => show_passed(out, split::pass_once(edition, job, book, sides, lent))?,
        _ => show_ran(out, runs::run(edition, job, book, sides, lent))?,
    }
    frames::show_list(out, sides)?;
    frames::show_list(out, lent.gains)?;
    frames::show_list(out, lent.moves.tried)?;
    if asked == Asked::RunInShort {
        return Ok(());
    }
    show_rest(out, lent)
}

// A length that was read, as far as there is room. A function, since its promise is what cutting a list asks.
fn at_most(n: u16, most: usize) -> usize
    ensures { result ≤ most }
{
    most.min(n as usize)
}

// Every entry that is lent beside the job is 7 before the call.
fn show_call<R: Read, W: Write>(reader: &mut R, out: &mut W, asked: Asked) -> io::Result<()> {
    let figures = Numbers::<13>::take(reader)?.list;
    let job = Job::new(figures[1], figures[2], figures[3], figures[4]);
    let sizes = Numbers::<MOST>::take(reader)?;
    let mut sides = Numbers::<MOST>::take(reader)?;
    let marks = Numbers::<MOST>::take(reader)?;
    let bounds = Numbers::<MOST>::take(reader)?;
    let pins = Numbers::<MOST>::take(reader)?;
    let book = Book {
        files: Files {
            sizes: sizes.all(),
            marks: marks.all(),
        },
        recipes: Recipes {
            bounds: bounds.all(),
            pins: pins.all(),
        },
    };
    let mut gains = [7i32; MOST_MOVES];
    let mut tried = [7u16; MOST_MOVES];
    let mut gained = [7i32; MOST_MOVES];
    let mut cuts = [7u16; MOST_MOVES];
    let mut ends = [7u16; MOST_MOVES];
    let mut recipes = [7u16; MOST_SCANS];
    let mut kinds = [7u16; MOST_SCANS];
    let mut scratch = [7u16; MOST_SCRATCH];
    let mut lent = Lent {
        gains: &mut gains[..at_most(figures[5], MOST_MOVES)],
        moves: Moves {
            tried: &mut tried[..at_most(figures[6], MOST_MOVES)],
            gained: &mut gained[..at_most(figures[7], MOST_MOVES)],
            cuts: &mut cuts[..at_most(figures[8], MOST_MOVES)],
            ends: &mut ends[..at_most(figures[9], MOST_MOVES)],
        },
        scans: Scans {
            recipes: &mut recipes[..at_most(figures[10], MOST_SCANS)],
            kinds: &mut kinds[..at_most(figures[11], MOST_SCANS)],
        },
        scratch: &mut scratch[..at_most(figures[12], MOST_SCRATCH)],
    };
    let d = sides.len;
    call(
        out,
        asked,
        figures[0],
        job,
        book,
        &mut sides.list[..d],
        &mut lent,
    )
}

fn show_case<R: Read, W: Write>(reader: &mut R, out: &mut W, kind: u8) -> io::Result<()> {
    match kind {
        b'p' => show_call(reader, out, Asked::Pass),
        b'r' => show_call(reader, out, Asked::Run),
        b's' => show_call(reader, out, Asked::RunInShort),
        _ => frames::show_heading(reader, out),
    }
}

fn main(rt: HostRuntime) -> io::Result<()> {
    frames::show_each(
        &mut rt.reader(),
        &mut io::writer(&rt),
        |reader, out, kind| { show_case(reader, out, kind) },
    )
}
