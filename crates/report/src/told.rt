// What is told of an answer, laid into the lent room.
ghost use Rattle.std.specs.Prelude.{◌≡◌, ◌≢◌, ℕ, ◌≤◌, List, length, leb, true};
ghost use Rattle.rules.specs.Cases.{as_printed};
ghost use Rattle.rules.specs.Report.{printed, printing};
ghost use Rattle.report.specs.Laying.{Laid};
ghost use Rattle.report.specs.Steps.{room_verdict};
ghost use Rattle.report.specs.Writing.{Wrote};

use crate::split::check_sides;
use crate::text::Text;
use job::refuse_if;
use rules::Refusal;

// Unlike with `Display`, laying it never fails.
pub(crate) trait Told {
    ghost lines: { Self → List ℕ };

    // At most so many bytes.
    ghost most: { Self → ℕ };

    // Whether it is known to fit into so many bytes before it is laid.
    fn fits(&self, _room: usize) -> bool
        ensures { result ≡ true → most self.now ≤ _room }
    {
        false
    }

    fn lay(&self, text: &mut Text)
        requires { text.old.at ≡ 0 }
        ensures { Wrote (lines self.now) (most self.now) text.old text.new };
}

// As much of it as the room holds; the answer counts all of it.
fn lay_into<T: Told>(room: &mut [u8], told: &T) -> usize
    ensures laid { Laid 0 (T.lines told.now) room.old result room.new }
    ensures upper_bound { result ≤ T.most told.now }
{
    let mut text = Text { room, at: 0 };
    told.lay(&mut text);
    text.at
}

// Refused with 3 for want of room, then with 6; else the text is laid. What is sure to fit is not counted first.
pub(crate) fn tell<T: Told>(told: &T, sides: &[u16], out: &mut [u8]) -> Result<usize, Refusal>
    ensures told { printed (as_printed result) out.new ≡ printing (room_verdict sides.now (leb (length (T.lines told.now)) (length out.old))) (T.lines told.now) out.old }
    ensures enough { T.most told.now ≤ length out.old → (as_printed result).verdict.number ≢ 3 }
{
    if told.fits(out.len()) && check_sides(sides).is_ok() {
        return Ok(lay_into(out, told));
    }
    let bytes = lay_into(&mut [], told);
    refuse_if(out.len() < bytes, Refusal::WrongLength)?;
    check_sides(sides)?;
    lay_into(out, told);
    Ok(bytes)
}
