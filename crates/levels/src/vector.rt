// A file's gain vector: its gain, which is its level 1, and levels 2 and 3 by one walk over its recipes.
ghost use Rattle.std.specs.Prelude.{◌≡◌, ◌+◌, ◌*◌, ◌≤◌, ◌<◌, length};
ghost use Rattle.rules.specs.Lists.{«bit», diff};
ghost use Rattle.rules.specs.Levels.{adds, takes};
ghost use Rattle.tables.specs.Zones.{counts_at};
ghost use Rattle.levels.specs.Vectors.{vector_by, vector_in};
ghost use Rattle.levels.specs.Numbers.{as_binding, counts_from};

use super::numbers::{BindingNumber, number_at};
use choice::Standing;
use job::Recipes;
use tables::Extent;

// The recipes passed that add to a level, and those that take from it.
#[derive(Clone, Copy)]
pub(crate) struct Level {
    pub(crate) up: usize,
    pub(crate) down: usize,
}

impl Level {
    // With one recipe more, of these numbers, of level i.
    fn with(self, own: BindingNumber, other: BindingNumber, i: u16) -> Level
        requires room { (self.up < 65536) × (self.down < 65536) }
        requires level { 0 < i }
        ensures up { result.up ≡ self.up + «bit» (adds i (as_binding own) (as_binding other)) }
        ensures down { result.down ≡ self.down + «bit» (takes i (as_binding own) (as_binding other)) }
    {
        Level {
            up: self.up + usize::from(own.adds(other, i)),
            down: self.down + usize::from(own.takes(other, i)),
        }
    }

    fn value(self) -> i32
        requires { (self.up < 65536) × (self.down < 65536) }
        ensures { result ≡ diff self.up self.down }
    {
        self.up as i32 - self.down as i32
    }
}

// The vector of a file of this gain with these recipes, by the counts of its own side and of the other.
fn levels_of(gain: i32, list: &[u16], own: &[u16], other: &[u16], n: usize) -> [i32; 3]
    requires { (length list.now < 65536) × (3 * n ≤ length own.now) × (3 * n ≤ length other.now) }
    ensures { result ≡ vector_by gain (counts_from own.now other.now n) list.now }
{
    let mut second = Level { up: 0, down: 0 };
    let mut third = Level { up: 0, down: 0 };
    // One walk: to count by `filter`, for each level what adds and what takes, would be four.
    for recipe in list {
        let j = usize::from(*recipe);
        let mine = number_at(own, n, j);
        let theirs = number_at(other, n, j);
        second = second.with(mine, theirs, 2);
        third = third.with(mine, theirs, 3);
    }
    [gain, second.value(), third.value()]
}

// The vector of file f.
pub(crate) fn vector_of(standing: Standing, scratch: &[u16], extent: Extent, f: usize) -> [i32; 3]
    requires { (f < length standing.sides.now) × (f < length standing.gains.now) × (counts_at extent.files extent.pins + 4 * extent.recipes ≤ length scratch.now) }
    ensures { result ≡ vector_in extent.files extent.recipes extent.pins standing.entry.sides.now standing.entry.gains.now scratch.now f }
{
    let zones = extent.zones();
    let n = usize::from(extent.recipes);
    let own = extent.side_at(standing.sides[f]);
    // The counts of the two sides are neighbours.
    let other = zones.counts + (zones.counts + n - own);
    // A file's recipes stand as a recipe's files do.
    let cells = Recipes {
        bounds: &scratch[zones.starts..zones.counts],
        pins: &scratch[zones.cells..zones.starts],
    };
    levels_of(
        standing.gains[f],
        cells.view(f),
        &scratch[own..own + 3 * n],
        &scratch[other..other + 3 * n],
        n,
    )
}
