// A job by its figures and its totals: the balance, and the checks that need no list.
ghost use Rattle.std.specs.Prelude.{◌≡◌, ◌*◌, ◌≤◌, length};
ghost use Rattle.rules.specs.Cases.{as_verdict};
ghost use Rattle.rules.specs.Check.{check_ratio};
ghost use Rattle.job.specs.declared.TheConstants.Job.{MOST_FILES};
ghost use Rattle.job.specs.Given.{the_limits, the_files};
ghost use Rattle.job.specs.Parts.{of_figures};
ghost use Rattle.job.specs.Totals.{totals_of, tolerance_by, reaches, may_empty_by, Within, GivesStart, GivesRest};

use crate::Job;
use crate::figures::{Totals, totals_of};
use crate::placed::Placed;
use crate::verdict::{bad_k, refuse_if};
use rules::Refusal;

// The figures of a job, and the totals of its files: small enough that no product of the two wraps.
#[derive(Clone, Copy)]
pub(crate) struct Weighed {
    pub job: Job,
    pub totals: Totals,
    ghost within: { Within totals (MOST_FILES * 65535) },
}

// 7: the ratio, then k.
#[tactic(auto, using(rules::proofs::Exits::exits), unfolding(rules::specs::Check::check_ratio))]
fn check_ratio(job: Job) -> Result<(), Refusal>
    ensures { as_verdict result ≡ check_ratio the_limits (of_figures job) }
{
    refuse_if(
        job.num == 0 || job.den <= job.num || Job::MOST_DEN < job.den,
        Refusal::BadRatio,
    )?;
    refuse_if(bad_k(job.k), Refusal::BadRatio)
}

impl Weighed {
    // The totals of files that are not too many stay within the bound.
    pub(crate) fn new(job: Job, placed: Placed) -> Weighed
        ensures job { result.job ≡ job }
        ensures totals { result.totals ≡ totals_of (the_files placed.entry.book placed.entry.sides.now) (length placed.entry.book.files.sizes.now) }
    {
        Weighed {
            job,
            totals: totals_of(placed),
        }
    }

    // k times smax.
    pub(crate) fn tolerance(self) -> u64
        ensures { (result ≡ tolerance_by self.job self.totals) × (result ≤ 65535 * (MOST_FILES * 65535)) }
    {
        self.job.k as u64 * self.totals.largest
    }

    // Whether the most that |A| can be is large enough, and the least small enough: for a pass both are |A| itself.
    fn is_balanced(self, least: u64, most: u64) -> bool
        requires { (least ≤ MOST_FILES * 65535) × (most ≤ MOST_FILES * 65535) }
        ensures { result ≡ reaches self.job self.totals least most }
    {
        let den = self.job.den as u64;
        let w = self.job.num as u64 * self.totals.weight;
        let m = den * self.tolerance();
        w <= den * most + m && den * least <= w + m
    }

    // Whether the window would allow a vault of size 0.
    fn may_empty(self) -> bool
        ensures { result ≡ may_empty_by self.job self.totals }
    {
        let den = self.job.den as u64;
        let w = self.job.num as u64 * self.totals.weight;
        let m = den * self.tolerance();
        w <= m || den * self.totals.weight <= w + m
    }

    // 9: a pass is refused where |A| is not balanced, the balancing where it cannot be.
    fn check_start(self, balancing: bool) -> Result<(), Refusal>
        ensures { GivesStart balancing self.job self.totals (as_verdict result) }
    {
        let t = self.totals;
        let (least, most) = if balancing {
            (t.least, t.most)
        } else {
            (t.size, t.size)
        };
        refuse_if(!self.is_balanced(least, most), Refusal::Unbalanced)
    }

    // 7, 8, 10 and 9, in this order.
    pub(crate) fn check_rest(self, balancing: bool) -> Result<(), Refusal>
        ensures { GivesRest balancing the_limits self.job self.totals (as_verdict result) }
    {
        check_ratio(self.job)?;
        refuse_if(self.totals.free == 0, Refusal::NoneFree)?;
        refuse_if(self.may_empty(), Refusal::MayEmpty)?;
        self.check_start(balancing)
    }
}
