// Making a balanced start: document 02, order 3. What it has in common with a pass is a pass's code: laying out, turning a file over, treating its recipes.
ghost use Rattle.std.specs.Prelude.{◌≡◌, ◌<◌, IfSome, length};
ghost use Rattle.rules.specs.Cases.{as_balance_figures};
ghost use Rattle.rules.specs.Balance.{balancing_of, «balancing»};
ghost use Rattle.job.specs.Given.{the_limits, the_job};
ghost use Rattle.choice.specs.Cases.{as_file};
ghost use Rattle.split.specs.OwnLists.{OwnLists};
ghost use Rattle.split.specs.Playing.{heavy_file};

use super::from_job::{extent_of, two_byte_sizes, window_of};
use super::moves::treat_move;
use super::progress::Progress;
use choice::{Window, greatest_on, heavy_side};
use job::{Book, Job, Scans};
use rules::{Balanced, Refusal};
use tables::{ListLengths, MOST_SCANS, end_scans, lay_out};

// The file to move: the free one of the vault that is too large with the greatest gain. None once the split is balanced, or where that vault has no free file.
fn heavy_file(
    window: Window,
    size: u32,
    sides: &[u16],
    scratch: &[u16],
    gains: &[i32],
) -> Option<usize>
    ensures file_or_none { as_file (length sides.now) result ≡ heavy_file window size sides.now scratch.now gains.now }
    ensures below { IfSome result (λ file. file < length sides.now) }
{
    let side = heavy_side(window, size)?;
    greatest_on(side, sides, scratch, gains)
}

// The balancing with lists of its own for the gains and the scans. It keeps no move lists, so that of these only the lengths are told.
fn balance_with(
    job: Job,
    book: Book,
    sides: &mut [u16],
    gains: &mut [i32],
    scans: &mut Scans,
    scratch: &mut [u16],
) -> Result<Balanced, Refusal>
    requires { OwnLists Job.MOST_FILES Job.MOST_RECIPES (length book.files.sizes.now) (length gains.old) (length scans.old.recipes.now) (length scans.old.kinds.now) }
    ensures { balancing_of (as_balance_figures result) sides.new scratch.new ≡ «balancing» the_limits (the_job job book.entry sides.old) scratch.old }
{
    two_byte_sizes(book.files.sizes);
    let c = book.files.sizes.len();
    let lists = ListLengths {
        tried: c,
        gained: c,
        cuts: c,
        ends: c,
        recipes: scans.recipes.len(),
        kinds: scans.kinds.len(),
    };
    let s = lay_out(1, job, book, sides, gains, scratch, lists, true)?;
    let window = window_of(job, s.weight, s.tolerance);
    let mut p = Progress::new(s.size, s.cut);
    // No walk: it ends where no file is to move.
    while let Some(f) = heavy_file(window, p.size as u32, sides, scratch, gains) {
        p = treat_move(book, sides, gains, scans, scratch, f, p).counted();
    }
    end_scans(scans, scratch, p.scans, 1, extent_of(book));
    Ok(p.balanced(s.unread, s.holding))
}

// While A is too large the free file of A with the greatest gain is moved, while it is too small the same from B; the sides are left as moved.
pub fn balance(
    job: Job,
    book: Book,
    sides: &mut [u16],
    scratch: &mut [u16],
) -> Result<Balanced, Refusal>
    ensures { balancing_of (as_balance_figures result) sides.new scratch.new ≡ «balancing» the_limits (the_job job book.entry sides.old) scratch.old }
{
    let mut gains = [0i32; Job::MOST_FILES];
    let mut recipes = [0u16; MOST_SCANS];
    let mut kinds = [0u16; MOST_SCANS];
    let mut scans = Scans {
        recipes: &mut recipes,
        kinds: &mut kinds,
    };
    let c = book.files.sizes.len().min(Job::MOST_FILES);
    balance_with(job, book, sides, &mut gains[..c], &mut scans, scratch)
}
