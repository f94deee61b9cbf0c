// Test cases of a reader, as frames: a length in two bytes, low byte first, and so many bytes.
#![tactic(auto)]

ghost use Rattle.std.specs.Prelude.{◌≡◌, ℕ, ◌<◌, ◌≤◌, take, drop, replicate, IfOk, OnErr};
ghost use Rattle.blocks.specs.Counts.{IsPrefixLen};
ghost use Rattle.frames.specs.Numbers.{NumbersPut};

use std::fmt::Display;
use std::io;
use std::io::{Read, Write};

// 0 at the end of the input.
fn take_length<R: Read>(reader: &mut R) -> io::Result<usize>
    ensures { IfOk result (λ n. n < 65536) }
{
    let mut two = [0u8; 2];
    blocks::take_from(reader, &mut two, 2)?;
    Ok(u16::from_le_bytes(two) as usize)
}

// The bytes of the next frame, as many as the room holds; the others are let go. How many came into the room: none at the end of the input.
// Where a read fails, so many bytes as came before it stand in the room.
pub fn take<R: Read>(reader: &mut R, room: &mut [u8]) -> io::Result<usize>
    ensures prefix_len { IfOk result (λ n. IsPrefixLen n room.new) }
    ensures room_unchanged { IfOk result (λ n. drop n room.new ≡ drop n room.old) }
    ensures failed { OnErr result ((n : ℕ) × (n < 65536) × (drop n room.new ≡ drop n room.old)) }
{
    let bytes = take_length(reader)?;
    let got = blocks::take_from(reader, room, bytes)?;
    let mut others = [0u8; 65535];
    blocks::take_from(reader, &mut others, bytes - got)?;
    Ok(got)
}

// The numbers of the bytes, two bytes each, low byte first, as many as the room holds.
fn put_numbers(bytes: &[u8], room: &mut [u16]) -> usize
    ensures prefix_len { IsPrefixLen result room.new }
    ensures numbers_put { NumbersPut bytes.now room.old room.new result }
{
    let n = room.len().min(bytes.len() / 2);
    for i in 0..n {
        room[i] = u16::from_le_bytes([bytes[2 * i], bytes[2 * i + 1]]);
    }
    n
}

// The next frame as numbers. How many came into the room, which stays as it was where a read fails.
pub fn take_numbers<R: Read>(reader: &mut R, room: &mut [u16]) -> io::Result<usize>
    ensures prefix_len { IfOk result (λ n. IsPrefixLen n room.new) }
    ensures room_unchanged { IfOk result (λ n. drop n room.new ≡ drop n room.old) }
    ensures failed { OnErr result (room.new ≡ room.old) }
{
    let mut bytes = [0u8; 65535];
    let got = take(reader, &mut bytes)?;
    Ok(put_numbers(&bytes[..got], room))
}

// The numbers of a frame in a list of their own, with zeros behind them.
#[derive(Clone, Copy)]
pub struct Numbers<const N: usize> {
    pub list: [u16; N],
    pub len: usize,
    ghost within: { len ≤ N },
}

impl<const N: usize> Numbers<N> {
    // Those of the next frame, as many as there is room for.
    pub fn take<R: Read>(reader: &mut R) -> io::Result<Self>
        ensures { IfOk result (λ n. drop n.len n.list ≡ drop n.len (replicate N 0)) }
    {
        let mut list = [0u16; N];
        let len = take_numbers(reader, &mut list)?;
        Ok(Numbers { list, len })
    }

    pub fn all(&self) -> &[u16]
        ensures { result.now ≡ take self.now.len self.now.list }
    {
        &self.list[..self.len]
    }
}

// The line of a list: how many entries it has, then the entries.
pub fn show_list<W: Write, T: Display>(out: &mut W, list: &[T]) -> io::Result<()> {
    write!(out, "{}", list.len())?;
    for x in list {
        write!(out, " {x}")?;
    }
    out.write_all(b"\n")
}

// A frame that is a heading: a line of its own.
pub fn show_heading<R: Read, W: Write>(reader: &mut R, out: &mut W) -> io::Result<()> {
    let mut text = [0u8; 255];
    let got = take(reader, &mut text)?;
    out.write_all(&text[..got])?;
    out.write_all(b"\n")
}

// Each case is shown, until there is none: the first frame of a case is a letter that says of which kind it is. A proved loop ends, so this one has more turns than
// there are cases.
pub fn show_each<R: Read, W: Write, F: FnMut(&mut R, &mut W, u8) -> io::Result<()>>(
    reader: &mut R,
    out: &mut W,
    mut show: F,
) -> io::Result<()>
    requires { F.IsAlwaysCallable show }
{
    for _ in 0..u16::MAX {
        let mut kind = [0u8; 1];
        if take(reader, &mut kind)? == 0 {
            break;
        }
        show(reader, out, kind[0])?;
    }
    Ok(())
}
