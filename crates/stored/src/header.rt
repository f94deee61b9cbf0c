// Block 0: its check and layout, then the header that it holds, then what follows from that.
ghost use Rattle.std.specs.Prelude.{◌≡◌, ◌*◌, length, IfOk};
ghost use Rattle.rules.specs.Cases.{as_verdict, as_read_figures};
ghost use Rattle.rules.specs.Stored.{header_of, roomy, block_count};
ghost use Rattle.job.specs.Given.{the_limits};
ghost use Rattle.stored.specs.Room.{room_long};
ghost use Rattle.stored.specs.Steps.{k_in, header_in, header_verdict, figures_verdict, opening_verdict, Allowed};

use crate::block::{Head, block_at, block_verdict};
use job::{Job, bad_k, check_counts, refuse_if};
use layout::{Kind, block_count, header_values, value_in};
use rules::{Header, Refusal};

// How long the lists are that a stored job is read into; not read off a `Room`, since `take_up` is lent none.
#[derive(Clone, Copy)]
pub(crate) struct Lengths {
    pub(crate) sizes: usize,
    pub(crate) sides: usize,
    pub(crate) marks: usize,
    pub(crate) bounds: usize,
    pub(crate) pins: usize,
}

impl Lengths {
    // Lists that are never too short.
    pub(crate) const MOST: Lengths = Lengths {
        sizes: Job::MOST_FILES,
        sides: Job::MOST_FILES,
        marks: Job::MOST_FILES,
        bounds: Job::MOST_RECIPES + 1,
        pins: Job::MOST_PINS,
    };
}

// A header with six values means k = 1, one with seven carries k: document 02, order 6.
fn k_in(block: &[u8; 512]) -> u16
    ensures { result ≡ k_in block.now }
{
    if block[3] == 7 { value_in(block, 6) } else { 1 }
}

// The values of block 0.
fn header_in(block: &[u8; 512]) -> Header
    ensures { result ≡ header_in block.now }
{
    Header {
        files: value_in(block, 0),
        recipes: value_in(block, 1),
        pins: value_in(block, 2),
        num: value_in(block, 3),
        den: value_in(block, 4),
        cap: value_in(block, 5),
        k: k_in(block),
    }
}

// Whether the lists have a place for each file, recipe and pin.
fn is_roomy(h: Header, lent: Lengths) -> bool
    ensures { result ≡ roomy h (room_long lent) }
{
    let files = h.files as usize;
    files <= lent.sizes
        && files <= lent.sides
        && files <= lent.marks
        && h.recipes as usize + 1 <= lent.bounds
        && h.pins as usize <= lent.pins
}

// 22 for a k that is none, then 1 to 3, of the header's figures.
fn figures_verdict(h: Header, lent: Lengths) -> Result<(), Refusal>
    ensures { as_verdict result ≡ figures_verdict the_limits h (room_long lent) }
{
    refuse_if(bad_k(h.k), Refusal::BadLayout { block: 0 })?;
    check_counts(h.files as usize, h.recipes as usize, h.pins as usize)?;
    refuse_if(!is_roomy(h, lent), Refusal::WrongLength)
}

// Block 0, filled, checked and then taken apart; its k is looked at first, since the count of its values goes by it.
fn take_header(bytes: &[u8]) -> Result<Header, Refusal>
    ensures verdict { (as_read_figures result).verdict ≡ header_verdict bytes.now }
    ensures header { IfOk result (λ h. h ≡ header_of bytes.now) }
{
    if bytes.len() < 512 {
        return Err(Refusal::BadTotal);
    }
    let block = block_at(bytes, 0);
    let head = Head {
        number: 0,
        kind: Kind::Header,
        values: header_values(k_in(&block)),
    };
    block_verdict(&block, head)?;
    Ok(header_in(&block))
}

// Block 0, then k, 1 to 3 and the total length by its header.
pub(crate) fn opening(bytes: &[u8], lent: Lengths) -> Result<Header, Refusal>
    ensures verdict { (as_read_figures result).verdict ≡ opening_verdict the_limits bytes.now (room_long lent) }
    ensures header { IfOk result (λ h. h ≡ header_of bytes.now) }
    ensures total { IfOk result (λ h. length bytes.now ≡ 512 * block_count h) }
    ensures allowed { IfOk result (λ h. Allowed the_limits h) }
{
    let header = take_header(bytes)?;
    let total = 512 * block_count(header) as usize;
    figures_verdict(header, lent)?;
    refuse_if(bytes.len() != total, Refusal::BadTotal)?;
    Ok(header)
}
