// A pass told: whether the lists hold it, and its lines.
#![tactic(auto, unfolding(crate::specs::Laying::longest, crate::specs::Laying::widest))]

ghost use Rattle.std.specs.Prelude.{◌≡◌, true, not, ◌+◌, ◌*◌, ◌≤◌, length, IfOk};
ghost use Rattle.rules.specs.Cases.{pass_numbers};
ghost use Rattle.rules.specs.Check.{refuse_if};
ghost use Rattle.rules.specs.Lists.{some_below};
ghost use Rattle.rules.specs.Trace.{bad_end, holds_pass, pass_lines};
ghost use Rattle.report.specs.Bytes.{trace_bytes};
ghost use Rattle.report.specs.Cases.{listed};
ghost use Rattle.report.specs.Splits.{told_job};
ghost use Rattle.report.specs.Steps.{verdict_on};

use crate::Listing;
use crate::figures::put_first;
use crate::moves::put_gains;
use crate::split::Split;
use crate::text::Text;
use crate::told::Told;
use job::refuse_if;
use rules::{Passed, Refusal};

// The scans of each move end no earlier than they begin, and within the scan lists.
fn holds_scans(lists: Listing, n: usize) -> bool
    requires { n ≤ length lists.ends.now }
    ensures { result ≡ not (some_below (bad_end (listed lists.entry)) n) }
{
    !(0..n).any(|i| lists.bad_end(i))
}

// A gain for each file, no more moves than files, and the lists of the moves and their scans as long.
fn holds(sizes: &[u16], passed: Passed, lists: Listing) -> bool
    ensures { result ≡ holds_pass sizes.now (pass_numbers passed) (listed lists.entry) }
{
    let n = passed.tried as usize;
    lists.gains.len() == sizes.len()
        && n <= sizes.len()
        && n <= lists.tried.len()
        && n <= lists.gained.len()
        && n <= lists.cuts.len()
        && n <= lists.ends.len()
        && holds_scans(lists, n)
}

// A pass's answer, the split that it left, and the lists, which hold it.
#[derive(Clone, Copy)]
pub(crate) struct PassLines<'a> {
    passed: Passed,
    split: Split<'a>,
    lists: Listing<'a>,
    ghost held: { holds_pass split.files.sizes.now (pass_numbers passed) (listed lists) ≡ true },
}

impl<'a> PassLines<'a> {
    // 3 for lists that do not hold the pass.
    pub fn of(passed: Passed, split: Split<'a>, lists: Listing<'a>) -> Result<Self, Refusal>
        ensures verdict { verdict_on result ≡ refuse_if (not (holds_pass split.entry.files.sizes.now (pass_numbers passed) (listed lists.entry))) 3 0 }
        ensures same_pass { IfOk result (λ l. (l.passed ≡ passed) × (l.split ≡ split.entry) × (l.lists ≡ lists.entry)) }
    {
        let held = holds(split.files.sizes, passed, lists);
        refuse_if(!held, Refusal::WrongLength)?;
        Ok(PassLines {
            passed,
            split,
            lists,
        })
    }
}

impl Told for PassLines<'_> {
    ghost lines = { λ l. pass_lines (told_job l.split) (pass_numbers l.passed) l.split.sides.now (listed l.lists) };

    ghost most = { λ l. trace_bytes (length l.split.files.sizes.now) (length l.lists.recipes.now) };

    fn lay(&self, text: &mut Text) {
        let p = self.passed;
        let b = self.split.size_on(1);
        put_first(text, p.unread, p.holding);
        self.lists.put_moves(text, p.tried as usize);
        put_gains(text, self.lists.gains);
        text.form(
            b"cut 0 1\nsize 2 3\ntried 4\nkept 5\nscans 6\nvisits 7\n",
            &[
                p.before as u64,
                p.cut as u64,
                p.size,
                b,
                p.tried,
                p.kept,
                p.scans,
                p.visits,
            ],
        );
        self.split.lay_sides(text);
    }
}
