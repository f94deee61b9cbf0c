// Reading a stored job: document 01, "The stored job".
#![tactic(auto)]

mod block;
mod entries;
mod header;
mod room;
mod taken;
mod views;

ghost use Rattle.std.specs.Prelude.{◌≡◌, IfOk};
ghost use Rattle.rules.specs.Cases.{as_verdict, as_read_figures};
ghost use Rattle.rules.specs.Check.{check_contents};
ghost use Rattle.rules.specs.Stored.{header_of, job_of, written, read_verdict, reading};
ghost use Rattle.rules.specs.Report.{all_room};
ghost use Rattle.job.specs.Given.{the_limits};
ghost use Rattle.stored.specs.Room.{room_in, room_long, SameRoom, taking_up, lists_of, as_taken};
ghost use Rattle.stored.specs.Steps.{figures_in, Allowed, Ample, job_taken};

use entries::{hand_over, take_blocks};
use header::{Lengths, opening};
use job::{Job, check_sound};
pub use room::Room;
use rules::{Header, Refusal};
pub use taken::TakenUp;

// The figures of a stored job.
pub fn figures_of(h: Header) -> Job
    ensures { result ≡ figures_in h }
{
    Job::new(h.num, h.den, h.cap, h.k)
}

// 4 to 6, of the job that was taken up: its counts passed 1 to 3.
fn sound_verdict(taken: &TakenUp) -> Result<(), Refusal>
    requires { Allowed the_limits taken.now.header }
    ensures { as_verdict result ≡ check_contents (job_taken taken.now) }
{
    check_sound(taken.book(), taken.sides(), true)
}

// The stored job in lists of its own, and what reading answers, by the lengths of the lent lists.
fn take_job(bytes: &[u8], lent: Lengths) -> Result<TakenUp, Refusal>
    ensures verdict { (as_taken result).verdict ≡ read_verdict the_limits bytes.now (room_long lent) }
    ensures header { IfOk result (λ t. t.header ≡ header_of bytes.now) }
    ensures lists { IfOk result (λ t. lists_of t ≡ written (job_of bytes.now) (all_room the_limits)) }
{
    let header = opening(bytes, lent)?;
    let mut taken = TakenUp {
        header,
        sizes: [0; Job::MOST_FILES],
        sides: [0; Job::MOST_FILES],
        marks: [0; Job::MOST_FILES],
        bounds: [0; Job::MOST_RECIPES + 1],
        pins: [0; Job::MOST_PINS],
    };
    take_blocks(bytes, &mut taken)?;
    sound_verdict(&taken)?;
    Ok(taken)
}

// The job that was taken up, over the first entries of the lent lists.
fn hand_over_all(taken: &TakenUp, room: &mut Room)
    requires { Ample taken.now.header.files taken.now.header.recipes taken.now.header.pins (room_in room.old) }
    ensures same_lists { SameRoom room.old room.new }
    ensures written { room_in room.new ≡ written (job_taken taken.now) (room_in room.old) }
{
    let book = taken.book();
    hand_over(book.files.sizes, room.sizes);
    hand_over(taken.sides(), room.sides);
    hand_over(book.files.marks, room.marks);
    hand_over(book.recipes.bounds, room.bounds);
    hand_over(book.recipes.pins, room.pins);
}

// The answer and the five lent lists are those of the reading, for every input.
pub fn read(bytes: &[u8], room: &mut Room) -> Result<Header, Refusal>
    ensures same_lists { SameRoom room.old room.new }
    ensures result_value { as_read_figures result ≡ (reading the_limits bytes.now (room_in room.old)).answer }
    ensures room_after { room_in room.new ≡ (reading the_limits bytes.now (room_in room.old)).room }
{
    let lent = Lengths {
        sizes: room.sizes.len(),
        sides: room.sides.len(),
        marks: room.marks.len(),
        bounds: room.bounds.len(),
        pins: room.pins.len(),
    };
    let taken = take_job(bytes, lent)?;
    hand_over_all(&taken, room);
    Ok(taken.header)
}

// A stored job, read into lists of its own: the answer and the lists are those of the reading, for every input.
pub fn take_up(bytes: &[u8]) -> Result<TakenUp, Refusal>
    ensures read_value { as_taken result ≡ (taking_up the_limits bytes.now).answer }
    ensures result_value { IfOk result (λ t. lists_of t ≡ (taking_up the_limits bytes.now).room) }
{
    take_job(bytes, Lengths::MOST)
}
