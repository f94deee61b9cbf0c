// A block of 512 bytes: what it must be, and filled, its check and its layout.
ghost use Rattle.std.specs.Prelude.{◌≡◌, ◌+◌, ◌*◌, ◌≤◌, length};
ghost use Rattle.rules.specs.Lists.{some_below};
ghost use Rattle.rules.specs.Cases.{as_verdict};
ghost use Rattle.rules.specs.Stored.{block_at, kind_of, values_in, laid_out};
ghost use Rattle.layout.specs.Kinds.{kind_number};
ghost use Rattle.stored.specs.Steps.{left_over, bad_second, block_numbers};

use job::refuse_if;
use layout::{Kind, check_of, kind_of, value_in, values_in, word_at};
use rules::{Header, Refusal};

// What a block must be: its number, its kind and how many values it has.
#[derive(Clone, Copy)]
pub(crate) struct Head {
    pub(crate) number: u16,
    pub(crate) kind: Kind,
    pub(crate) values: u8,
}

impl Head {
    // Block b, by the header.
    pub(crate) fn of(h: Header, b: u16) -> Self
        ensures number { result.number ≡ b }
        ensures kind { kind_number result.kind ≡ kind_of h b }
        ensures values { result.values ≡ values_in h b }
    {
        Head {
            number: b,
            kind: kind_of(h, b),
            values: values_in(h, b),
        }
    }
}

// Block b of the bytes.
pub(crate) fn block_at(bytes: &[u8], b: u16) -> [u8; 512]
    requires { 512 * b + 512 ≤ length bytes.now }
    ensures { result ≡ block_at bytes.now b }
{
    let at = 512 * b as usize;
    let mut block = [0u8; 512];
    block.copy_from_slice(&bytes[at..at + 512]);
    block
}

// Whether a value from n on is not zero.
fn has_left_over(block: &[u8; 512], n: u8) -> bool
    ensures { result ≡ some_below (left_over block.now n) 253 }
{
    for v in n..253 {
        if value_in(block, v) != 0 {
            return true;
        }
    }
    false
}

// Whether a file of a block of n values has a second value over 5.
fn has_bad_second(block: &[u8; 512], n: u8) -> bool
    ensures { result ≡ some_below (bad_second block.now n) 126 }
{
    for f in 0..126 {
        if 2 * f < n && 5 < value_in(block, 2 * f + 1) {
            return true;
        }
    }
    false
}

fn is_laid_out(block: &[u8; 512], head: Head) -> bool
    ensures { result ≡ laid_out block.now head.number (kind_number head.kind) head.values }
{
    let named = word_at(block, 0) == head.number;
    let of_kind = block[2] == head.kind as u8;
    let counted = block[3] == head.values;
    let over = has_left_over(block, head.values);
    let bad = (head.kind == Kind::Files) & has_bad_second(block, head.values);
    named & of_kind & counted & !over & !bad
}

// 21 or 22, if the block is not the one that has this head.
pub(crate) fn block_verdict(block: &[u8; 512], head: Head) -> Result<(), Refusal>
    ensures { as_verdict result ≡ block_numbers block.now head.number (kind_number head.kind) head.values }
{
    let place = head.number as usize;
    refuse_if(
        word_at(block, 510) != check_of(block),
        Refusal::BadCheck { block: place },
    )?;
    refuse_if(
        !is_laid_out(block, head),
        Refusal::BadLayout { block: place },
    )
}
