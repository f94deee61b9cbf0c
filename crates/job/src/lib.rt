// The kind of job of document 01: its figures and limits, the view of a recipe, the check, the measure and the survey.
#![tactic(auto)]

mod book;
mod figures;
mod files;
mod holds;
mod lent;
mod numbers;
mod pins;
mod placed;
mod verdict;
mod weighed;

ghost use Rattle.std.specs.Prelude.{◌≡◌, ◌≤◌};
ghost use Rattle.rules.specs.Cases.{as_verdict, as_measure};
ghost use Rattle.rules.specs.Check.{check_job, «measure»};
ghost use Rattle.job.specs.Given.{the_limits, the_job};
ghost use Rattle.job.specs.Survey.{survey_of, as_survey};

pub use book::{Book, Files, Recipes, recipe_count, view};
pub use figures::{Surveyed, count_on};
use figures::{cut, holding, totals_of};
pub use holds::{Held, Vaults, tally};
pub use lent::{Lent, Moves, Scans};
pub use numbers::{bit, entry_at, wide};
use rules::{Measured, Refusal};
use verdict::sound;
pub use verdict::{Numbered, bad_k, check_counts, check_sound, or_else, refuse_if};
use weighed::Weighed;

// What a job has besides its lists: the ratio num/den for A, the cap, and k of the tolerance.
#[derive(Clone, Copy)]
pub struct Job {
    pub num: u16,
    pub den: u16,
    pub cap: u16,
    pub k: u16,
}

impl Job {
    pub const MOST_FILES: usize = 1024;

    pub const MOST_RECIPES: usize = 1024;

    pub const MOST_PINS: usize = 4096;

    pub const MOST_DEN: u16 = 1000;

    pub const MOST_K: u16 = 4;

    pub fn new(num: u16, den: u16, cap: u16, k: u16) -> Self
        ensures { (result.num ≡ num) × (result.den ≡ den) × (result.cap ≡ cap) × (result.k ≡ k) }
    {
        Self { num, den, cap, k }
    }
}

// 1 to 10.
pub fn check(job: Job, book: Book, sides: &[u16]) -> Result<(), Refusal>
    ensures { as_verdict result ≡ check_job the_limits (the_job job book.entry sides.now) }
{
    Weighed::new(job, sound(book, sides, true)?).check_rest(false)
}

// 1 to 6, else the cut, |A| and what could not be read.
pub fn measure(job: Job, book: Book, sides: &[u16]) -> Result<Measured, Refusal>
    ensures { as_measure result ≡ «measure» the_limits (the_job job book.entry sides.now) }
{
    let placed = sound(book, sides, true)?;
    let t = totals_of(placed);
    Ok(Measured {
        cut: cut(placed),
        size: t.size,
        unread: t.unread,
        holding: holding(book, t.unread),
    })
}

// 1 to 10, where `lent` says that the lent lists have the right lengths and `balancing` whose 9 it is, and the figures that a pass, a run or the balancing starts from.
// Both are words that `survey_of` takes too.
pub fn survey(
    job: Job,
    book: Book,
    sides: &[u16],
    lent: bool,
    balancing: bool,
) -> Result<Surveyed, Refusal>
    ensures { as_survey result ≡ survey_of balancing the_limits (the_job job book.entry sides.now) lent }
{
    let placed = sound(book, sides, lent)?;
    let weighed = Weighed::new(job, placed);
    weighed.check_rest(balancing)?;
    let t = weighed.totals;
    Ok(Surveyed {
        weight: t.weight,
        tolerance: weighed.tolerance(),
        size: t.size,
        cut: cut(placed),
        unread: t.unread,
        holding: holding(book, t.unread),
    })
}
