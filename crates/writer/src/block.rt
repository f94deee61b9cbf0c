// A block of 512 bytes.
ghost use Rattle.std.specs.Prelude.{◌≡◌, ◌<◌};
ghost use Rattle.std.proofs.Math.Seq.{paste};
ghost use Rattle.rules.specs.Writing.{two_bytes, job_block};
ghost use Rattle.job.specs.Given.{the_job};

use crate::checked::Checked;
use layout::{check_of, kind_of, values_in};

// Two bytes, low byte first.
fn put_word(block: &mut [u8; 512], i: usize, x: u16)
    requires { i < 511 }
    ensures { block.new ≡ paste block.old i (two_bytes x) 2 }
{
    block[i..i + 2].copy_from_slice(&x.to_le_bytes());
}

impl Checked<'_> {
    // Block b: filled, and then its check.
    pub(crate) fn block(&self, b: u16) -> [u8; 512]
        ensures { result ≡ job_block (the_job self.now.job self.now.book self.now.sides.now) b }
    {
        let mut block = [0u8; 512];
        let n = values_in(self.header, b);
        put_word(&mut block, 0, b);
        block[2] = kind_of(self.header, b) as u8;
        block[3] = n;
        for v in 0..n {
            put_word(&mut block, 4 + 2 * v as usize, self.value(b, v));
        }
        let check = check_of(&block);
        put_word(&mut block, 510, check);
        block
    }
}
