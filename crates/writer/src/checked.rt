// A job that the writer has checked.
ghost use Rattle.std.specs.Prelude.{◌≡◌, ℕ, ◌≤◌, get_or};
ghost use Rattle.rules.specs.Theorems.{Binary};
ghost use Rattle.rules.specs.Writing.{header_for};
ghost use Rattle.job.specs.Given.{the_job};

use job::{Book, Job};
use layout::block_count;
use rules::Header;

// The job with its header; a side is 0 or 1 and a mark at most 2, so that a file's second value is not over 5.
#[derive(Clone, Copy)]
pub(crate) struct Checked<'a> {
    pub(crate) header: Header,
    pub(crate) job: Job,
    pub(crate) book: Book<'a>,
    pub(crate) sides: &'a [u16],
    ghost own_header: { header ≡ header_for (the_job job book sides.now) },
    ghost sides_binary: { Binary sides.now },
    ghost marks_few: { (f : ℕ) → get_or book.files.marks.now f 0 ≤ 2 },
}

impl Checked<'_> {
    ghost use Rattle.std.specs.Prelude.{◌*◌, length};
    ghost use Rattle.rules.specs.Stored.{block_count};
    ghost use Rattle.rules.specs.Writing.{blocks_of};

    // Every block, one after the other.
    pub(crate) fn put_blocks(&self, out: &mut [u8])
        requires { length out.old ≡ 512 * block_count self.now.header }
        ensures { out.new ≡ blocks_of (the_job self.now.job self.now.book self.now.sides.now) }
    {
        for b in 0..block_count(self.header) {
            let block = self.block(b);
            let at = 512 * b as usize;
            out[at..at + 512].copy_from_slice(&block);
        }
    }
}
