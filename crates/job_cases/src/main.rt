// Cases on standard input: a heading, a job that the check and the measure are asked of, a job that is balanced, or a pin list that the view is asked of.
//
// The line of a job: the check's number and place, then the measure's number, place, cut, size of A, unread files and recipes
// that hold one. The lines of a balancing: its number, place, moves, and the other four; the sides as it leaves them; the scratch.
// The line of a list, as of a view: how many entries it has, then the entries.
#![tactic(auto)]

use frames::Numbers;
use job::{Book, Files, Job, Recipes};
use rules::{Balanced, Measured, Refusal, Verdict};
use std::io;
use std::io::{Read, Write};

// Room for one number more than the longest list of a job may have.
const MOST: usize = Job::MOST_PINS + 1;

// Room for some numbers more than the largest job asks.
const MOST_SCRATCH: usize = tables::MOST_NUMBERS + 16;

// ---- Writing

// A refusal's number and place; of what is done 0 and 0. All other numbers of a refused answer are 0.
fn show_verdict<W: Write>(out: &mut W, refused: Option<Refusal>) -> io::Result<()> {
    let v = refused.map(Verdict::from).unwrap_or_default();
    write!(out, "{} {}", v.number, v.place)
}

// ---- Asking

fn show_measure<W: Write>(out: &mut W, m: Measured) -> io::Result<()> {
    writeln!(out, " {} {} {} {}", m.cut, m.size, m.unread, m.holding)
}

fn ask<W: Write>(out: &mut W, job: Job, book: Book, sides: &[u16]) -> io::Result<()> {
    show_verdict(out, job::check(job, book, sides).err())?;
    out.write_all(b" ")?;
    let measured = job::measure(job, book, sides);
    show_verdict(out, measured.err())?;
    show_measure(out, measured.unwrap_or_default())
}

fn show_balanced<W: Write>(out: &mut W, b: Balanced) -> io::Result<()> {
    writeln!(
        out,
        " {} {} {} {} {}",
        b.moves, b.cut, b.size, b.unread, b.holding
    )
}

fn balance<W: Write>(
    out: &mut W,
    job: Job,
    book: Book,
    sides: &mut [u16],
    scratch: &mut [u16],
) -> io::Result<()> {
    let balanced = split::balance(job, book, sides, scratch);
    show_verdict(out, balanced.err())?;
    show_balanced(out, balanced.unwrap_or_default())?;
    frames::show_list(out, sides)?;
    frames::show_list(out, scratch)
}

fn take_job<R: Read>(reader: &mut R) -> io::Result<Job> {
    let figures = Numbers::<4>::take(reader)?.list;
    Ok(Job::new(figures[0], figures[1], figures[2], figures[3]))
}

fn show_job<R: Read, W: Write>(reader: &mut R, out: &mut W, balanced: bool) -> io::Result<()> {
    let job = take_job(reader)?;
    let sizes = Numbers::<MOST>::take(reader)?;
    let mut sides = Numbers::<MOST>::take(reader)?;
    let marks = Numbers::<MOST>::take(reader)?;
    let bounds = Numbers::<MOST>::take(reader)?;
    let pins = Numbers::<MOST>::take(reader)?;
    let book = Book {
        files: Files {
            sizes: sizes.all(),
            marks: marks.all(),
        },
        recipes: Recipes {
            bounds: bounds.all(),
            pins: pins.all(),
        },
    };
    if !balanced {
        return ask(out, job, book, sides.all());
    }
    let mut scratch = Numbers::<MOST_SCRATCH>::take(reader)?;
    let (d, z) = (sides.len, scratch.len);
    balance(out, job, book, &mut sides.list[..d], &mut scratch.list[..z])
}

// A recipe's number may take all eight bytes.
fn take_recipe<R: Read>(reader: &mut R) -> io::Result<usize> {
    let j = Numbers::<4>::take(reader)?.list;
    Ok(j[0] as usize + 65536 * (j[1] as usize + 65536 * (j[2] as usize + 65536 * (j[3] as usize))))
}

fn show_view<R: Read, W: Write>(reader: &mut R, out: &mut W) -> io::Result<()> {
    let j = take_recipe(reader)?;
    let bounds = Numbers::<MOST>::take(reader)?;
    let pins = Numbers::<MOST>::take(reader)?;
    let recipes = Recipes {
        bounds: bounds.all(),
        pins: pins.all(),
    };
    frames::show_list(out, recipes.view(j))
}

fn show_case<R: Read, W: Write>(reader: &mut R, out: &mut W, kind: u8) -> io::Result<()> {
    match kind {
        b'j' => show_job(reader, out, false),
        b'b' => show_job(reader, out, true),
        b'v' => show_view(reader, out),
        _ => frames::show_heading(reader, out),
    }
}

fn main(rt: HostRuntime) -> io::Result<()> {
    frames::show_each(
        &mut rt.reader(),
        &mut io::writer(&rt),
        |reader, out, kind| { show_case(reader, out, kind) },
    )
}
