// A block of 512 bytes: its check and its values.
ghost use Rattle.std.specs.Prelude.{◌≡◌};
ghost use Rattle.rules.specs.Stored.{block_check, word, value_in};

// The check over the first 510 bytes by running sums, from the last byte back: byte i is in i + 1 of them.
pub fn check_of(block: &[u8; 512]) -> u16
    ensures { result ≡ block_check block.now }
{
    let mut tail: usize = 0;
    let mut sum: usize = 21845;
    for i in (0..510).rev() {
        tail += block[i] as usize;
        sum += tail;
    }
    (sum % 65536) as u16
}

// Two bytes, low byte first; a byte past the block reads as 0.
pub fn word_at(block: &[u8; 512], i: u16) -> u16
    ensures { result ≡ word block.now i }
{
    let at = i as usize;
    let low = block.get(at).copied().unwrap_or(0);
    let high = block.get(at + 1).copied().unwrap_or(0);
    u16::from_le_bytes([low, high])
}

// Value v, as many as a byte can count.
pub fn value_in(block: &[u8; 512], v: u8) -> u16
    ensures { result ≡ value_in block.now v }
{
    word_at(block, 4 + 2 * v as u16)
}
