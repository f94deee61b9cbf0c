// The first lines of every text, and the lines of a report.
#![tactic(auto, unfolding(crate::specs::Laying::longest, crate::specs::Laying::widest))]

ghost use Rattle.std.specs.Prelude.{true, length};
ghost use Rattle.rules.specs.Cases.{run_numbers};
ghost use Rattle.rules.specs.Report.{first_lines, figure_lines};
ghost use Rattle.report.specs.Bytes.{first_bytes, report_bytes};
ghost use Rattle.report.specs.Laying.{Ahead};
ghost use Rattle.report.specs.Splits.{told_job};
ghost use Rattle.report.specs.Steps.{settled_line};
ghost use Rattle.report.specs.Writing.{Wrote};

use crate::split::Split;
use crate::text::Text;
use crate::told::Told;
use rules::Ran;

// `done` only where every file could be read; else `partial` and the two numbers.
pub(crate) fn put_first(text: &mut Text, unread: usize, holding: usize)
    requires { Ahead text.old.at first_bytes }
    ensures { Wrote (first_lines unread holding) first_bytes text.old text.new }
{
    if unread == 0 {
        return text.plain(b"done\n");
    }
    text.form(b"partial\nunread 0 1\n", &[unread as u64, holding as u64]);
}

fn put_settled(text: &mut Text, settled: bool)
    requires { Ahead text.old.at 12 }
    ensures { Wrote (settled_line settled) 12 text.old text.new }
{
    if settled {
        return text.plain(b"settled yes\n");
    }
    text.plain(b"settled no\n");
}

// A run's answer, and the split that it left.
#[derive(Clone, Copy)]
pub(crate) struct RunLines<'a> {
    pub ran: Ran,
    pub split: Split<'a>,
}

impl Told for RunLines<'_> {
    ghost lines = { λ r. figure_lines (told_job r.split) (run_numbers r.ran) r.split.sides.now };

    ghost most = { λ r. report_bytes (length r.split.sides.now) };

    fn lay(&self, text: &mut Text) {
        let figures = self.ran.figures;
        let b = self.split.size_on(1);
        put_first(text, figures.unread, figures.holding);
        text.form(
            b"cut 0 1\nsize 2 3\npasses 4\n",
            &[
                figures.before as u64,
                figures.cut as u64,
                figures.size,
                b,
                self.ran.passes,
            ],
        );
        put_settled(text, self.ran.settled);
        text.form(b"kept 0\nvisits 1\n", &[figures.kept, figures.visits]);
        self.split.lay_sides(text);
    }
}
