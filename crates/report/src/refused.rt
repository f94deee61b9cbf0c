// The line of a refusal.
#![tactic(auto, unfolding(crate::specs::Laying::longest, crate::specs::Laying::widest))]

ghost use Rattle.std.specs.Prelude.{◌≡◌, ◌≢◌, ◌≤◌, length};
ghost use Rattle.rules.specs.Cases.{as_printed};
ghost use Rattle.rules.specs.Compare.{refused_of};
ghost use Rattle.rules.specs.Report.{printed, into_room, refusal};
ghost use Rattle.report.specs.Bytes.{figure_bytes};
ghost use Rattle.report.specs.Laying.{filled, longest};

use crate::RefusedJob;
use crate::text::Text;
use crate::told::{Told, tell};
use rules::{Refusal, Verdict};

// A line by itself.
#[derive(Clone, Copy)]
pub(crate) struct Line<'a> {
    pub form: &'a [u8],
    pub numbers: &'a [u64],
    ghost short: { longest (length numbers.now) form.now ≤ figure_bytes },
}

impl Told for Line<'_> {
    ghost lines = { λ l. filled l.numbers.now l.form.now };

    ghost most = { λ l. figure_bytes };

    fn lay(&self, text: &mut Text) {
        text.form(self.form, self.numbers);
    }
}

// One line: `refused`, number and place.
pub(crate) fn tell_refusal(verdict: Verdict, out: &mut [u8]) -> Result<usize, Refusal>
    ensures out_after { printed (as_printed result) out.new ≡ into_room (refusal verdict) out.old }
    ensures enough { figure_bytes ≤ length out.old → (as_printed result).verdict.number ≢ 3 }
{
    let line = Line {
        form: b"refused 0 1\n",
        numbers: &[verdict.number as u64, verdict.place as u64],
    };
    tell(&line, &[], out)
}

// `refused`, job, number and place.
pub(crate) fn tell_refused_job(refused: RefusedJob, out: &mut [u8]) -> Result<usize, Refusal>
    ensures out_after { printed (as_printed result) out.new ≡ into_room (refused_of refused.job refused.verdict) out.old }
    ensures enough { figure_bytes ≤ length out.old → (as_printed result).verdict.number ≢ 3 }
{
    let verdict = refused.verdict;
    let line = Line {
        form: b"refused 0 1 2\n",
        numbers: &[
            refused.job as u64,
            verdict.number as u64,
            verdict.place as u64,
        ],
    };
    tell(&line, &[], out)
}
