// What a pass has from its job and the lists that it is lent: the balance window, the extent, and how long the lists are.
ghost use Rattle.std.specs.Prelude.{◌≡◌, ℕ, ◌-◌, ◌*◌, ◌<◌, ◌^◌, length, get_or, Err};
ghost use Rattle.rules.specs.Cases.{pass_told};
ghost use Rattle.rules.specs.Run.{no_figures};
ghost use Rattle.job.specs.Parts.{of_figures};
ghost use Rattle.tables.specs.Zones.{extent_of};
ghost use Rattle.choice.specs.Choosing.{window_of};
ghost use Rattle.split.specs.Passing.{lengths_of};

use choice::Window;
use job::{Book, Job, Moves, Scans};
use rules::{Passed, Verdict};
use tables::{Extent, ListLengths};

// Den, and num·W and den times the tolerance.
pub(crate) fn window_of(job: Job, weight: u64, tolerance: u64) -> Window
    requires { (weight < 2 ^ 32) × (tolerance < 2 ^ 32) }
    ensures { result ≡ window_of (of_figures job) weight tolerance }
{
    Window {
        den: job.den,
        aim: (job.num as u64) * weight,
        span: (job.den as u64) * tolerance,
    }
}

// Sizes are two-byte numbers: a proof knows the numbers of a list that is handed over by itself, but not of one within a struct.
pub(crate) fn two_byte_sizes(sizes: &[u16])
    ensures { (f : ℕ) → get_or sizes.now f 0 < 65536 }
{}

// C, N and P.
pub(crate) fn extent_of(book: Book) -> Extent
    requires { (length book.files.sizes.now < 65536) × (length book.recipes.bounds.now < 65536) × (length book.recipes.pins.now < 65536) }
    ensures { result ≡ extent_of (length book.entry.files.sizes.now) (length book.entry.recipes.bounds.now - 1) (length book.entry.recipes.pins.now) }
{
    Extent {
        files: book.files.sizes.len() as u16,
        recipes: book.recipes.count() as u16,
        pins: book.recipes.pins.len() as u16,
    }
}

// A refused pass: all other numbers are 0.
pub fn refused(verdict: Verdict) -> Result<Passed, Verdict>
    ensures answer { result ≡ Err verdict }
    ensures numbers { pass_told result ≡ no_figures verdict }
{
    Err(verdict)
}

// How long the lists of moves and of scans are.
pub(crate) fn lengths_of(moves: &Moves, scans: &Scans) -> ListLengths
    ensures { result ≡ lengths_of moves.now scans.now }
{
    ListLengths {
        tried: moves.tried.len(),
        gained: moves.gained.len(),
        cuts: moves.cuts.len(),
        ends: moves.ends.len(),
        recipes: scans.recipes.len(),
        kinds: scans.kinds.len(),
    }
}
