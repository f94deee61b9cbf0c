// Files on their sides, as what is told has them: the letters, the size of a side, the first side over 1.
ghost use Rattle.std.specs.Prelude.{◌≡◌, not, cond, ◌+◌, ltb, eqb, length, get_or, IfOk};
ghost use Rattle.job.specs.Given.{the_limits};
ghost use Rattle.rules.specs.Cases.{as_verdict};
ghost use Rattle.rules.specs.Check.{refuse_at};
ghost use Rattle.rules.specs.Report.{«letter», sides_line};
ghost use Rattle.rules.specs.Split.{size_on};
ghost use Rattle.report.specs.Laying.{Ahead};
ghost use Rattle.report.specs.Steps.{EachFile, lengths_verdict, verdict_on};
ghost use Rattle.report.specs.Writing.{Wrote};

use crate::text::Text;
use job::{Files, Job, refuse_if};
use rules::Refusal;

// Not too many files, and a side and a mark for each.
#[derive(Clone, Copy)]
pub(crate) struct Split<'a> {
    pub files: Files<'a>,
    pub sides: &'a [u16],
    ghost each_file: { EachFile the_limits.files files.sizes.now sides.now files.marks.now },
}

impl<'a> Split<'a> {
    ghost use Rattle.report.specs.Splits.{told_job};

    // 2, or 3 for sides or marks that are not C long.
    #[tactic(auto, using(crate::proofs::Exits::exits), unfolding(crate::specs::Steps::lengths_verdict))]
    pub fn of(files: Files<'a>, sides: &'a [u16]) -> Result<Self, Refusal>
        ensures verdict { verdict_on result ≡ lengths_verdict the_limits.files files.entry.sizes.now sides.now files.entry.marks.now }
        ensures same_lists { IfOk result (λ s. (s.files ≡ files.entry) × (s.sides ≡ sides.entry)) }
    {
        let count = files.sizes.len();
        refuse_if(Job::MOST_FILES < count, Refusal::OverMost)?;
        let each = sides.len() == count && files.marks.len() == count;
        refuse_if(!each, Refusal::WrongLength)?;
        Ok(Split { files, sides })
    }

    // What the files on a side weigh: one that could not be read weighs nothing.
    pub fn size_on(self, side: u16) -> u64
        ensures { result ≡ size_on (told_job self.entry) side self.entry.sides.now }
    {
        let mut sum: u64 = 0;
        for (f, size) in self.files.sizes.iter().enumerate() {
            if self.sides[f] == side && self.files.marks[f] != 2 {
                sum += u64::from(*size);
            }
        }
        sum
    }

    pub fn lay_sides(self, text: &mut Text)
        requires { Ahead text.old.at (length self.sides.now + 7) }
        ensures { Wrote (sides_line (told_job self.entry) self.entry.sides.now) (length self.entry.sides.now + 7) text.old text.new }
    {
        text.plain(b"sides ");
        for (side, mark) in self.sides.iter().zip(self.files.marks) {
            text.put(letter(*side, *mark));
        }
        text.put(b'\n');
    }
}

// That of a file which could not be read is `?`.
fn letter(side: u16, mark: u16) -> u8
    ensures { result ≡ cond (not (eqb mark 2)) («letter» side) 63 }
{
    match (mark, side) {
        (2, _) => b'?',
        (_, 0) => b'A',
        _ => b'B',
    }
}

// 6 for the lowest file whose side is over 1.
pub(crate) fn check_sides(sides: &[u16]) -> Result<(), Refusal>
    ensures { as_verdict result ≡ refuse_at 6 (λ f. ltb 1 (get_or sides.now f 0)) (length sides.now) }
{
    match sides.iter().position(|side| *side > 1) {
        Some(file) => Err(Refusal::BadFile { file }),
        None => Ok(()),
    }
}
