// The lines of a comparison.
#![tactic(auto, unfolding(crate::specs::Laying::longest, crate::specs::Laying::widest))]

ghost use Rattle.std.specs.Prelude.{◌≡◌, ◌*◌, ◌≤◌, length, IfOk};
ghost use Rattle.rules.specs.Compare.{most_differences, difference_line, difference_lines};
ghost use Rattle.job.specs.Given.{the_limits};
ghost use Rattle.report.specs.Bytes.{difference_bytes};
ghost use Rattle.report.specs.Comparison.{records_in, records_verdict};
ghost use Rattle.report.specs.Laying.{Ahead};
ghost use Rattle.report.specs.Steps.{verdict_on};
ghost use Rattle.report.specs.Writing.{Wrote};

use crate::MOST_DIFFERENCES;
use crate::text::Text;
use crate::told::Told;
use job::refuse_if;
use rules::{Difference, Refusal};

// The line of a record takes no more.
const DIFFERENCE_BYTES: usize = 84;

// A record: its four numbers, one space between.
fn put_difference(text: &mut Text, d: Difference)
    requires { Ahead text.old.at difference_bytes }
    ensures { Wrote (difference_line d) difference_bytes text.old text.new }
{
    text.form(
        b"0 1 2 3\n",
        &[d.what as u64, d.number as u64, d.old as u64, d.new as u64],
    );
}

// The first records of the numbers, four numbers to a record.
#[derive(Clone, Copy)]
pub(crate) struct DifferenceLines<'a> {
    count: usize,
    numbers: &'a [u16],
    ghost few: { count ≤ most_differences the_limits },
    ghost held: { 4 * count ≤ length numbers.now },
}

impl<'a> DifferenceLines<'a> {
    // 2 for more records than two jobs can have, or 3 for numbers that do not hold them.
    #[tactic(auto, using(crate::proofs::Exits::exits), unfolding(crate::specs::Comparison::records_verdict))]
    pub fn of(count: usize, numbers: &'a [u16]) -> Result<Self, Refusal>
        ensures verdict { verdict_on result ≡ records_verdict the_limits count (length numbers.now) }
        ensures same_records { IfOk result (λ d. (d.count ≡ count) × (d.numbers ≡ numbers.entry)) }
    {
        refuse_if(MOST_DIFFERENCES < count, Refusal::OverMost)?;
        refuse_if(numbers.len() < 4 * count, Refusal::WrongLength)?;
        Ok(DifferenceLines { count, numbers })
    }
}

impl Told for DifferenceLines<'_> {
    ghost lines = { λ d. difference_lines (records_in d.count d.numbers.now) };

    ghost most = { λ d. difference_bytes * d.count };

    fn fits(&self, room: usize) -> bool {
        DIFFERENCE_BYTES * self.count <= room
    }

    fn lay(&self, text: &mut Text) {
        for i in 0..self.count {
            let a = 4 * i;
            put_difference(
                text,
                Difference {
                    what: self.numbers[a],
                    number: self.numbers[a + 1],
                    old: self.numbers[a + 2],
                    new: self.numbers[a + 3],
                },
            );
        }
    }
}
