// Which blocks there are, by the header: document 01, "Kinds in order". A block's number is a two-byte number, its kind and its count of values are bytes.
ghost use Rattle.std.specs.Prelude.{◌≡◌, ◌<◌, ◌≤◌};
ghost use Rattle.rules.specs.Stored.{blocks_for, bounds_at, pins_at, block_count, kind_of, held_in, header_values, values_in};
ghost use Rattle.rules.specs.Theorems.{most_bytes};
ghost use Rattle.job.specs.Given.{the_limits};
ghost use Rattle.layout.specs.Kinds.{kind_number};

use job::Job;
use rules::Header;

// The kinds of block, in order; each one's number is a byte of the block.
#[derive(Clone, Copy, PartialEq, Eq)]
pub enum Kind {
    Header = 1,
    Files = 2,
    Bounds = 3,
    Pins = 4,
}

// The bytes of a block, and how many files or other numbers one holds.
const BLOCK_BYTES: usize = 512;

const BLOCK_FILES: u8 = 126;

const BLOCK_NUMBERS: u8 = 253;

// The blocks of the largest stored job, and one more, so that a longer input is seen to be longer. A constant calls no function, so its blocks are counted here by hand.
pub const INPUT_BYTES: usize = BLOCK_BYTES
    * (2 + (Job::MOST_FILES + (BLOCK_FILES as usize - 1)) / BLOCK_FILES as usize
        + (Job::MOST_RECIPES + BLOCK_NUMBERS as usize) / BLOCK_NUMBERS as usize
        + (Job::MOST_PINS + (BLOCK_NUMBERS as usize - 1)) / BLOCK_NUMBERS as usize);

// That number, and that no stored job has as many bytes: a program takes up so many of its input, and no more.
pub fn input_bytes() -> usize
    ensures result_value { result ≡ INPUT_BYTES }
    ensures lower_bound { most_bytes the_limits < result }
{
    INPUT_BYTES
}

// How many blocks hold x things, m to a block.
fn blocks_for(m: u8, x: usize) -> u16
    requires { (1 < m) × (x ≤ 65536) }
    ensures { result ≡ blocks_for m x }
{
    x.div_ceil(m as usize) as u16
}

pub fn bounds_at(h: Header) -> u16
    ensures { result ≡ bounds_at h }
{
    1 + blocks_for(BLOCK_FILES, h.files as usize)
}

pub fn pins_at(h: Header) -> u16
    ensures { result ≡ pins_at h }
{
    bounds_at(h) + blocks_for(BLOCK_NUMBERS, h.recipes as usize + 1)
}

pub fn block_count(h: Header) -> u16
    ensures { result ≡ block_count h }
{
    pins_at(h) + blocks_for(BLOCK_NUMBERS, h.pins as usize)
}

pub fn kind_of(h: Header, b: u16) -> Kind
    ensures { kind_number result ≡ kind_of h b }
{
    if b == 0 {
        Kind::Header
    } else if b < bounds_at(h) {
        Kind::Files
    } else if b < pins_at(h) {
        Kind::Bounds
    } else {
        Kind::Pins
    }
}

// The things in block k of a kind that has x of them, m to a block: only the last may be short.
pub fn held_in(m: u8, x: usize, k: u16) -> u8
    ensures { result ≡ held_in m x k }
{
    let before = m as usize * k as usize;
    x.saturating_sub(before).min(m as usize) as u8
}

// A header with six values means that k is 1: document 02, order 6.
pub fn header_values(k: u16) -> u8
    ensures { result ≡ header_values k }
{
    if k == 1 { 6 } else { 7 }
}

pub fn values_in(h: Header, b: u16) -> u8
    ensures { result ≡ values_in h b }
{
    if b == 0 {
        return header_values(h.k);
    }
    let bounds = bounds_at(h);
    if b < bounds {
        return 2 * held_in(BLOCK_FILES, h.files as usize, b - 1);
    }
    let pins = pins_at(h);
    if b < pins {
        return held_in(BLOCK_NUMBERS, h.recipes as usize + 1, b - bounds);
    }
    held_in(BLOCK_NUMBERS, h.pins as usize, b - pins)
}
