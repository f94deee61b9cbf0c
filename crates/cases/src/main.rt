// Stored jobs on standard input, each after its name; on standard output each name, and the night's report of the job.
#![tactic(auto)]

use std::io;
use std::io::{Read, Write};

fn show_report<R: Read, W: Write>(reader: &mut R, out: &mut W) -> io::Result<()> {
    let mut input = [0u8; layout::INPUT_BYTES];
    let got = frames::take(reader, &mut input)?;
    let mut text = [0u8; teller::TEXT_BYTES];
    let bytes = teller::night(1, &input[..got], &mut text).unwrap();
    out.write_all(&text[..bytes])
}

// Whether there was a case: every name has a letter.
fn show_case<R: Read, W: Write>(reader: &mut R, out: &mut W) -> io::Result<bool> {
    let mut name = [0u8; 255];
    let got = frames::take(reader, &mut name)?;
    if got == 0 {
        return Ok(false);
    }
    out.write_all(&name[..got])?;
    out.write_all(b"\n")?;
    show_report(reader, out)?;
    Ok(true)
}

// A proved loop ends, so this one has more turns than there are cases.
fn main(rt: HostRuntime) -> io::Result<()> {
    let mut reader = rt.reader();
    let mut out = io::writer(&rt);
    for _ in 0..u16::MAX {
        if !show_case(&mut reader, &mut out)? {
            break;
        }
    }
    Ok(())
}
