// Cases on standard input: a heading, a call of the writer, or a stored job that is read and written back.
//
// The lines of a call: `done`, then the output list in hexadecimal, a block to a line; or the
// refusal, and whether every byte of the list was kept. The line of a stored job: the reader's
// refusal, or whether the bytes written are those read.
#![tactic(auto)]

use frames::Numbers;
use job::{Book, Files, Job, Recipes};
use rules::{Refusal, Verdict};
use std::io;
use std::io::{Read, Write};
use stored::Room;

// Room for one number more than the longest list of a job may have.
const MOST: usize = Job::MOST_PINS + 1;

// The longest output list of a call, and what each byte of one is before the call.
const MOST_OUT: usize = 20000;

const FILLED: u8 = 165;

const DIGITS: [u8; 16] = *b"0123456789abcdef";

// ---- Writing

fn show_refusal<W: Write>(out: &mut W, refusal: Refusal) -> io::Result<()> {
    let v = Verdict::from(refusal);
    write!(out, "refused {} {}", v.number, v.place)
}

// Two digits for each byte, 512 bytes to a line; what the last line lacks is zeros. A line is written whole: nothing is kept back between two writes.
fn show_blocks<W: Write>(out: &mut W, bytes: &[u8]) -> io::Result<()> {
    for block in bytes.chunks(512) {
        out.write_all(&line_of(block))?;
        out.write_all(b"\n")?;
    }
    Ok(())
}

fn line_of(block: &[u8]) -> [u8; 1024] {
    let mut line = [b'0'; 1024];
    for i in 0..block.len().min(512) {
        line[2 * i] = DIGITS[(block[i] / 16) as usize];
        line[2 * i + 1] = DIGITS[(block[i] % 16) as usize];
    }
    line
}

// ---- A call of the writer

fn show_answer<W: Write>(out: &mut W, answer: Result<(), Refusal>, list: &[u8]) -> io::Result<()> {
    let Err(refusal) = answer else {
        out.write_all(b"done\n")?;
        return show_blocks(out, list);
    };
    show_refusal(out, refusal)?;
    if list.iter().all(|x| *x == FILLED) {
        return out.write_all(b" kept\n");
    }
    out.write_all(b" changed\n")
}

fn show_call<R: Read, W: Write>(reader: &mut R, out: &mut W) -> io::Result<()> {
    let figures = Numbers::<5>::take(reader)?.list;
    let job = Job::new(figures[0], figures[1], figures[2], figures[3]);
    let length = MOST_OUT.min(figures[4] as usize);
    let sizes = Numbers::<MOST>::take(reader)?;
    let sides = Numbers::<MOST>::take(reader)?;
    let marks = Numbers::<MOST>::take(reader)?;
    let bounds = Numbers::<MOST>::take(reader)?;
    let pins = Numbers::<MOST>::take(reader)?;
    let book = Book {
        files: Files {
            sizes: sizes.all(),
            marks: marks.all(),
        },
        recipes: Recipes {
            bounds: bounds.all(),
            pins: pins.all(),
        },
    };
    let mut list = [FILLED; MOST_OUT];
    let answer = writer::write(job, book, sides.all(), &mut list[..length]);
    show_answer(out, answer, &list[..length])
}

// ---- A stored job, read and written back

// The first numbers of a list, or all of it where there are not so many.
fn first(list: &[u16], n: usize) -> &[u16] {
    &list[..n.min(list.len())]
}

fn show_back<W: Write>(out: &mut W, bytes: &[u8]) -> io::Result<()> {
    let mut sizes = [0u16; MOST];
    let mut sides = [0u16; MOST];
    let mut marks = [0u16; MOST];
    let mut bounds = [0u16; MOST];
    let mut pins = [0u16; MOST];
    let mut room = Room {
        sizes: &mut sizes,
        sides: &mut sides,
        marks: &mut marks,
        bounds: &mut bounds,
        pins: &mut pins,
    };
    let header = match stored::read(bytes, &mut room) {
        Ok(header) => header,
        Err(refusal) => {
            show_refusal(out, refusal)?;
            return out.write_all(b"\n");
        }
    };
    let files = header.files as usize;
    let book = Book {
        files: Files {
            sizes: first(&sizes, files),
            marks: first(&marks, files),
        },
        recipes: Recipes {
            bounds: first(&bounds, header.recipes as usize + 1),
            pins: first(&pins, header.pins as usize),
        },
    };
    let mut list = [FILLED; 65535];
    let length = bytes.len().min(65535);
    let written = writer::write(
        stored::figures_of(header),
        book,
        first(&sides, files),
        &mut list[..length],
    );
    if written.is_ok() & (bytes == &list[..length]) {
        return out.write_all(b"same\n");
    }
    out.write_all(b"other\n")
}

fn show_stored<R: Read, W: Write>(reader: &mut R, out: &mut W) -> io::Result<()> {
    let mut bytes = [0u8; 65535];
    let got = frames::take(reader, &mut bytes)?;
    show_back(out, &bytes[..got])
}

// ---- The cases

fn show_case<R: Read, W: Write>(reader: &mut R, out: &mut W, kind: u8) -> io::Result<()> {
    match kind {
        b'w' => show_call(reader, out),
        b'b' => show_stored(reader, out),
        _ => frames::show_heading(reader, out),
    }
}

fn main(rt: HostRuntime) -> io::Result<()> {
    frames::show_each(
        &mut rt.reader(),
        &mut io::writer(&rt),
        |reader, out, kind| { show_case(reader, out, kind) },
    )
}
