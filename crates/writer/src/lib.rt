// Writing a stored job: document 02, order 1.
#![tactic(auto)]

mod block;
mod checked;
mod values;

ghost use Rattle.std.specs.Prelude.{◌≡◌, [], ◌<◌, length};
ghost use Rattle.rules.specs.Cases.{as_verdict};
ghost use Rattle.rules.specs.Writing.{header_for, writing_of, writing};
ghost use Rattle.job.specs.Given.{the_limits, the_job};

use checked::Checked;
use job::{Book, Job, bad_k, check_counts, check_sound, refuse_if};
use layout::block_count;
use rules::{Header, Refusal};

fn header_for(job: Job, book: Book) -> Header
    requires { (length book.files.sizes.now < 65536) × (length book.recipes.bounds.now < 65536) × (length book.recipes.pins.now < 65536) }
    ensures { result ≡ header_for (the_job job book.entry []) }
{
    Header {
        files: book.files.sizes.len() as u16,
        recipes: book.recipes.count() as u16,
        pins: book.recipes.pins.len() as u16,
        num: job.num,
        den: job.den,
        cap: job.cap,
        k: job.k,
    }
}

// 1 to 6, where an output list not exactly as long as the blocks is 3, and last 7 for k; else the list is the blocks.
// The header's figures are two bytes each, which 1 and 2 see to.
pub fn write(job: Job, book: Book, sides: &[u16], out: &mut [u8]) -> Result<(), Refusal>
    ensures { writing_of (as_verdict result) out.new ≡ writing the_limits (the_job job book.entry sides.now) out.old }
{
    check_counts(
        book.files.sizes.len(),
        book.recipes.count(),
        book.recipes.pins.len(),
    )?;
    let header = header_for(job, book);
    let fits = out.len() == 512 * block_count(header) as usize;
    check_sound(book, sides, fits)?;
    refuse_if(bad_k(job.k), Refusal::BadRatio)?;
    let checked = Checked {
        header,
        job,
        book,
        sides,
    };
    checked.put_blocks(out);
    Ok(())
}
