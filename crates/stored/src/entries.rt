// Blocks taken apart into lists, and lists handed over.
ghost use Rattle.std.specs.Prelude.{◌≡◌, ◌+◌, ◌-◌, ◌*◌, ◌/◌, ◌<◌, ◌≤◌, length, get_or, OnOk};
ghost use Rattle.rules.specs.Lists.{onto};
ghost use Rattle.rules.specs.Cases.{as_verdict};
ghost use Rattle.rules.specs.Stored.{block_at, kind_of, values_in, header_of, block_count, block_verdict, blocks_verdict, job_of, written};
ghost use Rattle.layout.specs.Kinds.{kind_number};
ghost use Rattle.stored.specs.Room.{lists_of};
ghost use Rattle.stored.specs.Steps.{TakesBlock};

use crate::block::{Head, block_at, block_verdict};
use crate::taken::TakenUp;
use layout::{Kind, block_count, bounds_at, pins_at, value_in};
use rules::Refusal;

// The n values of a block, into the entries from a on.
fn put<F: Fn(u8) -> u16>(into: &mut [u16], a: usize, n: u8, value: F)
    requires room { a + n ≤ length into.old }
    requires values { (v : _) → v < n → F.pre value v }
    ensures put { (v : _) → v < n → F.post value v (get_or into.new (a + v) 0) }
    ensures before { (i : _) → i < a → get_or into.new i 0 ≡ get_or into.old i 0 }
    ensures after { (i : _) → a + n ≤ i → get_or into.new i 0 ≡ get_or into.old i 0 }
{
    for v in 0..n {
        into[a + v as usize] = value(v);
    }
}

// A block past the header that has this head, taken apart.
fn take_apart(block: &[u8; 512], head: Head, taken: &mut TakenUp)
    requires past { (0 < head.number) × (head.number < block_count taken.old.header) }
    requires kind { kind_number head.kind ≡ kind_of taken.old.header head.number }
    requires values { head.values ≡ values_in taken.old.header head.number }
    ensures header { taken.new.header ≡ taken.old.header }
    ensures taken { (bytes : _) → block.now ≡ block_at bytes head.number → TakesBlock bytes taken.old.header head.number (lists_of taken.old) (lists_of taken.new) }
{
    let h = taken.header;
    let b = head.number;
    let n = head.values;
    match head.kind {
        Kind::Header => unreachable!(),
        Kind::Files => {
            let a = 126 * (b as usize - 1);
            put(&mut taken.sizes, a, n / 2, |f| value_in(block, 2 * f));
            put(
                &mut taken.sides,
                a,
                n / 2,
                |f| value_in(block, 2 * f + 1) % 2,
            );
            put(
                &mut taken.marks,
                a,
                n / 2,
                |f| value_in(block, 2 * f + 1) / 2,
            );
        }
        Kind::Bounds => {
            let a = 253 * (b - bounds_at(h)) as usize;
            put(&mut taken.bounds, a, n, |v| value_in(block, v));
        }
        Kind::Pins => {
            let a = 253 * (b - pins_at(h)) as usize;
            put(&mut taken.pins, a, n, |v| value_in(block, v));
        }
    }
}

// Block b past the header: filled, checked and then taken apart.
#[tactic(auto, unfolding(rules::specs::Stored::block_verdict))]
fn take_block(bytes: &[u8], b: u16, taken: &mut TakenUp) -> Result<(), Refusal>
    requires past { (0 < b) × (b < block_count taken.old.header) }
    requires filled { 512 * b + 512 ≤ length bytes.now }
    ensures verdict { as_verdict result ≡ block_verdict taken.old.header bytes.now b }
    ensures header { taken.new.header ≡ taken.old.header }
    ensures taken { OnOk result (TakesBlock bytes.now taken.old.header b (lists_of taken.old) (lists_of taken.new)) }
{
    let head = Head::of(taken.header, b);
    let block = block_at(bytes, b);
    block_verdict(&block, head)?;
    take_apart(&block, head, taken);
    Ok(())
}

// Each block past the header, kind after kind.
pub(crate) fn take_blocks(bytes: &[u8], taken: &mut TakenUp) -> Result<(), Refusal>
    requires header { taken.old.header ≡ header_of bytes.now }
    requires total { length bytes.now ≡ 512 * block_count taken.old.header }
    ensures verdict { as_verdict result ≡ blocks_verdict taken.old.header bytes.now 1 (block_count taken.old.header - 1) }
    ensures header { taken.new.header ≡ taken.old.header }
    ensures lists { OnOk result (lists_of taken.new ≡ written (job_of bytes.now) (lists_of taken.old)) }
{
    for b in 1..block_count(taken.header) {
        take_block(bytes, b, taken)?;
    }
    Ok(())
}

// The entries of one list, over the first of another.
#[tactic(auto, unfolding(rules::specs::Lists::onto))]
pub(crate) fn hand_over(from: &[u16], into: &mut [u16])
    requires { length from.now ≤ length into.old }
    ensures { into.new ≡ onto from.now into.old }
{
    into[..from.len()].copy_from_slice(from);
}
