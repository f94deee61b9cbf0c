// What each vault holds of a recipe, by one walk over its files.
ghost use Rattle.std.specs.Prelude.{◌≡◌, ◌<◌, ◌^◌};
ghost use Rattle.job.specs.Holds.{with_pin, tally_of};

use crate::numbers::{bit, entry_at};

// The readable files in a vault, and those of them that are locked.
#[derive(Clone, Copy, Default)]
pub struct Held {
    pub all: usize,
    pub locked: usize,
}

#[derive(Clone, Copy, Default)]
pub struct Vaults {
    pub a: Held,
    pub b: Held,
}

// One file more of the recipe, of this mark, in this vault or not.
fn with_pin(held: Held, mark: u16, there: bool) -> Held
    requires { (held.all < 2 ^ 63) × (held.locked < 2 ^ 63) }
    ensures { result ≡ with_pin held mark there }
{
    let read = mark != 2;
    Held {
        all: held.all + bit(read & there),
        locked: held.locked + bit(read & (there & (mark != 0))),
    }
}

pub fn tally(recipe: &[u16], sides: &[u16], marks: &[u16]) -> Vaults
    ensures { result ≡ tally_of sides.now marks.now recipe.now }
{
    let mut held = Vaults::default();
    for pin in recipe {
        let f = *pin as usize;
        let side = entry_at(sides, f);
        let mark = entry_at(marks, f);
        held.a = with_pin(held.a, mark, side == 0);
        held.b = with_pin(held.b, mark, side == 1);
    }
    held
}
