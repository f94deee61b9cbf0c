// Standard input or another reader, taken up block by block.
#![tactic(auto)]

ghost use Rattle.std.specs.Prelude.{◌≡◌, ℕ, ◌+◌, ◌<◌, ◌≤◌, length, take, drop, IfOk, OnErr};
ghost use Rattle.std.specs.Io.KnownBytes.{Consumes, Keeps, IsAtEnd};
ghost use Rattle.blocks.specs.Counts.{IsPrefixLen};

use std::io;
use std::io::{Input, Read};

// The reader's next bytes, put into the room from `at` on and before `end`: one block or the first bytes of one. How many came, none only at the end of the input.
fn take_block<R: Read>(reader: &mut R, room: &mut [u8], at: usize, end: usize) -> io::Result<usize>
    requires order { at ≤ end }
    requires fits { end ≤ length room.old }
    ensures within { IfOk result (λ n. at + n ≤ end) }
    ensures front { take at room.new ≡ take at room.old }
    ensures beyond { IfOk result (λ n. drop (at + n) room.new ≡ drop (at + n) room.old) }
    ensures bytes { IfOk result (λ n. Consumes (R.remaining reader.old) (R.remaining reader.new) (take n (drop at room.new))) }
    ensures at_end { IfOk result (λ n. n ≡ 0 → at < end → IsAtEnd (R.remaining reader.new)) }
    ensures failed { OnErr result ((room.new ≡ room.old) × Keeps (R.remaining reader.old) (R.remaining reader.new)) }
{
    let mut block = [0u8; 512];
    let most = (end - at).min(512);
    let got = reader.read(&mut block[..most])?;
    room[at..at + got].copy_from_slice(&block[..got]);
    Ok(got)
}

// The next bytes of the reader: `most` of them, or as many as the room holds, or fewer at the end of the input. How many came.
// Where a read fails, what came before it stands in the room.
pub fn take_from<R: Read>(reader: &mut R, room: &mut [u8], most: usize) -> io::Result<usize>
    ensures prefix_len { IfOk result (λ n. IsPrefixLen n room.new × (n ≤ most)) }
    ensures room_unchanged { IfOk result (λ n. drop n room.new ≡ drop n room.old) }
    ensures bytes { IfOk result (λ n. Consumes (R.remaining reader.old) (R.remaining reader.new) (take n room.new)) }
    ensures at_end { IfOk result (λ n. n < most → n < length room.new → IsAtEnd (R.remaining reader.new)) }
    ensures failed { OnErr result ((n : ℕ) × (n ≤ most) × (drop n room.new ≡ drop n room.old) × Consumes (R.remaining reader.old) (R.remaining reader.new) (take n room.new)) }
{
    let end = most.min(room.len());
    let mut at = 0;
    // No walk: a read brings as many bytes as it likes.
    while at < end {
        let got = take_block(reader, room, at, end)?;
        if got == 0 {
            return Ok(at);
        }
        at += got;
    }
    Ok(at)
}

// The same of standard input.
pub fn take(rt: &impl Input, room: &mut [u8], most: usize) -> io::Result<usize>
    ensures prefix_len { IfOk result (λ n. IsPrefixLen n room.new × (n ≤ most)) }
    ensures room_unchanged { IfOk result (λ n. drop n room.new ≡ drop n room.old) }
    ensures failed { OnErr result ((n : ℕ) × (n ≤ most) × (drop n room.new ≡ drop n room.old)) }
{
    take_from(&mut rt.reader(), room, most)
}
