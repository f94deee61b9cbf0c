// What stands before the first move is built: locks, cells and counts in the scratch, and the starting gains.
ghost use Rattle.std.specs.Prelude.{◌≡◌, length};
ghost use Rattle.tables.specs.SoundJob.{many_files, many_recipes, Room};
ghost use Rattle.tables.specs.LayingOut.{Prepared};

use super::cells::build_cells;
use super::counts::{fill_counts, start_gains};
use super::sound_job::SoundJob;

// The zones of the scratch are filled one after the other, each lent to the step that fills it; then the gains.
pub(crate) fn prepare(gains: &mut [i32], scratch: &mut [u16], job: SoundJob)
    requires gains_long { length gains.old ≡ many_files job }
    requires room { Room job scratch.old }
    ensures { Prepared job.entry.recipes.bounds.now job.entry.recipes.pins.now job.entry.sides.now job.entry.marks.now scratch.old scratch.new gains.new (many_recipes job.entry) }
{
    let zones = job.extent().zones();
    let cells = zones.cells;
    let counts = zones.counts;
    let end = counts + 4 * job.recipes.count();
    scratch[0..cells].copy_from_slice(job.marks);
    build_cells(&mut scratch[cells..counts], job);
    fill_counts(&mut scratch[counts..end], job);
    start_gains(gains, scratch, job);
}
