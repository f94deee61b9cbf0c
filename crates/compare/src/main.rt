// Two stored jobs, in the files that are named: the lines of their differences, or of a refusal, on standard output.
#![tactic(auto)]

ghost use Rattle.std.specs.Prelude.{◌≡◌, IfOk, length};
ghost use Rattle.blocks.specs.Counts.{IsPrefixLen};

use comparer::TEXT_BYTES;
use std::fs::File;
use std::rt::{Env, Files};
use std::{io, str};

// The bytes of the file that argument i names, as many as the room holds. How many came: none where no file is named, or it cannot be opened.
fn take_file(rt: &(impl Env + Files), i: usize, room: &mut [u8]) -> io::Result<usize>
    ensures { IfOk result (λ n. IsPrefixLen n room.new) }
{
    let mut name = [0u8; 4096];
    let length = arguments::put(rt, i, &mut name);
    let Ok(path) = str::from_utf8(&name[..length]) else {
        return Ok(0);
    };
    let most = room.len();
    match File::open(rt, path) {
        Ok(mut file) => blocks::take_from(&mut file, room, most),
        Err(_) => Ok(0),
    }
}

// Room for the lines. The `ensures` gives the length alone, which lending the room needs.
fn text_room() -> [u8; TEXT_BYTES]
    ensures { TEXT_BYTES ≡ length result }
{
    [0; TEXT_BYTES]
}

// The lines, on standard output. A function, so that the room is made once.
fn show(rt: &HostRuntime, old: &[u8], new: &[u8]) -> io::Result<()> {
    let mut text = text_room();
    let bytes = comparer::tell(old, new, &mut text).unwrap();
    rt.write_all(&text[..bytes])
}

fn main(rt: HostRuntime) -> io::Result<()> {
    let mut old = [0u8; layout::INPUT_BYTES];
    let came = take_file(&rt, 1, &mut old)?;
    let mut new = [0u8; layout::INPUT_BYTES];
    let got = take_file(&rt, 2, &mut new)?;
    show(&rt, &old[..came], &new[..got])
}
