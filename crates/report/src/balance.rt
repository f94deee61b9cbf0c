// The lines of a balancing.
#![tactic(auto, unfolding(crate::specs::Laying::longest, crate::specs::Laying::widest))]

ghost use Rattle.rules.specs.Balance.{balance_lines};
ghost use Rattle.rules.specs.Cases.{balance_numbers};
ghost use Rattle.report.specs.Bytes.{figure_bytes};
ghost use Rattle.report.specs.Splits.{told_job};

use crate::figures::put_first;
use crate::split::Split;
use crate::text::Text;
use crate::told::Told;
use rules::Balanced;

// A balancing's answer, and the split that it left.
#[derive(Clone, Copy)]
pub(crate) struct BalanceLines<'a> {
    pub balanced: Balanced,
    pub split: Split<'a>,
}

impl Told for BalanceLines<'_> {
    ghost lines = { λ b. balance_lines (told_job b.split) (balance_numbers b.balanced) b.split.sides.now };

    ghost most = { λ _. figure_bytes };

    fn lay(&self, text: &mut Text) {
        let answer = self.balanced;
        let b = self.split.size_on(1);
        put_first(text, answer.unread, answer.holding);
        text.form(
            b"moves 0\ncut 1\nsize 2 3\n",
            &[answer.moves as u64, answer.cut as u64, answer.size, b],
        );
    }
}
