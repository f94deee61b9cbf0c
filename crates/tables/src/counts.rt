// The counts of each recipe's files, and the gains that a pass starts with, worked out from them.
ghost use Rattle.std.specs.Prelude.{◌≡◌, [], ◌+◌, ◌*◌, ◌<◌, length, get_or, set, pos};
ghost use Rattle.tables.specs.Zones.{Counts};
ghost use Rattle.tables.specs.SoundJob.{read_recipes, many_files, many_recipes, state_at_start, gains_at_start, Stands};
ghost use Rattle.tables.specs.Counting.{counted, gain_by};

use super::sound_job::SoundJob;
use job::{Held, bit, entry_at, tally};

// The counts of a side, at this place and 2n further.
fn count_side(zone: &mut [u16], held: Held, at: usize, n: usize)
    requires { (held.all < 65536) × (held.locked < 65536) × (n < 65536) × (at + 2 * n < length zone.old) }
    ensures { zone.new ≡ set (set zone.old at held.all) (at + 2 * n) held.locked }
{
    zone[at] = held.all as u16;
    zone[at + 2 * n] = held.locked as u16;
}

// The counts of recipe j, for each side.
fn count_recipe(zone: &mut [u16], job: SoundJob, j: usize)
    requires { (j < many_recipes job) × (length zone.old ≡ 4 * many_recipes job) }
    ensures { zone.new ≡ counted (state_at_start job.entry) (many_recipes job.entry) j (get_or (read_recipes job.entry) j []) zone.old }
{
    let n = job.recipes.count();
    let held = tally(job.two_readable(j), job.sides, job.marks);
    count_side(zone, held.a, j, n);
    count_side(zone, held.b, n + j, n);
}

// The zone is 4N counts of readable files: on A, on B, locked on A, locked on B.
pub(crate) fn fill_counts(zone: &mut [u16], job: SoundJob)
    requires { length zone.old ≡ 4 * many_recipes job }
    ensures { Counts (read_recipes job.entry) (state_at_start job.entry) 0 (many_recipes job.entry) zone.new }
{
    for j in 0..job.recipes.count() {
        count_recipe(zone, job, j);
    }
}

// One up for each recipe of the list with a count of 1 on the file's own side, one down for each with none on the other; one walk for both.
fn gain_by(list: &[u16], own: &[u16], other: &[u16]) -> i32
    requires { length list.now < 65536 }
    ensures { result ≡ gain_by own.now other.now list.now }
{
    let mut up = 0;
    let mut down = 0;
    for j in list {
        let j = *j as usize;
        up += bit(entry_at(own, j) == 1);
        down += bit(entry_at(other, j) == 0);
    }
    (up as i32) - (down as i32)
}

// The gain that file f starts with, from its cells and their counts; a pinned or unread file holds 0.
fn start_gain(scratch: &[u16], job: SoundJob, f: usize) -> i32
    requires f_in_bounds { f < many_files job }
    requires stands { Stands job scratch.now }
    ensures { result ≡ get_or (gains_at_start job.entry) f (pos 0) }
{
    if job.marks[f] != 0 {
        return 0;
    }
    let extent = job.extent();
    let zones = extent.zones();
    let s = zones.cells + scratch[zones.starts + f] as usize;
    let e = zones.cells + scratch[zones.starts + f + 1] as usize;
    let n = extent.recipes as usize;
    let own = extent.side_at(job.sides[f]);
    let other = extent.side_at(1 - job.sides[f]);
    gain_by(
        &scratch[s..e],
        &scratch[own..own + n],
        &scratch[other..other + n],
    )
}

// Each file's gain.
pub(crate) fn start_gains(gains: &mut [i32], scratch: &[u16], job: SoundJob)
    requires gains_long { length gains.old ≡ many_files job }
    requires stands { Stands job scratch.now }
    ensures { gains.new ≡ gains_at_start job.entry }
{
    for (f, gain) in gains.iter_mut().enumerate() {
        *gain = start_gain(scratch, job, f);
    }
}
