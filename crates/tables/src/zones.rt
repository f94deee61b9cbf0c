// The zones of the scratch, by the extent of a job: places in one slice of numbers, as document 01 lends it.
ghost use Rattle.std.specs.Prelude.{◌≡◌, ◌*◌};
ghost use Rattle.rules.specs.Job.{scratch_numbers};
ghost use Rattle.tables.specs.Zones.{counts_at, side_at, zones_of};

use job::Job;

// C, N and P of a job that is not refused.
#[derive(Clone, Copy)]
pub struct Extent {
    pub files: u16,
    pub recipes: u16,
    pub pins: u16,
}

// Where the zones begin; the locks are the first C numbers.
#[derive(Clone, Copy)]
pub struct Zones {
    pub cells: usize,
    pub starts: usize,
    pub counts: usize,
}

impl Extent {
    pub fn zones(self) -> Zones
        ensures { result ≡ zones_of self.files self.pins }
    {
        let c = self.files as usize;
        let starts = c + self.pins as usize;
        Zones {
            cells: c,
            starts,
            counts: starts + c + 1,
        }
    }

    // Where the counts of side u begin.
    pub fn side_at(self, u: u16) -> usize
        ensures { result ≡ side_at (counts_at self.files self.pins) self.recipes u }
    {
        let counts = self.zones().counts;
        if u == 0 {
            return counts;
        }
        counts + self.recipes as usize
    }

    // The numbers of the scratch by an edition; by edition 2 the largest job has the most.
    pub(crate) fn numbers_for(self, edition: u16) -> usize
        ensures numbers { result ≡ scratch_numbers edition self.pins self.files self.recipes }
        ensures most { MOST_NUMBERS ≡ scratch_numbers 2 Job.MOST_PINS Job.MOST_FILES Job.MOST_RECIPES }
    {
        let counts = self.scans();
        let numbers = self.pins as usize + 4 * self.files as usize + counts + 16;
        // Of any number that is handed in, as the definition has it.
        if edition == 2 {
            return numbers + counts;
        }
        numbers
    }

    // The scans that a pass may list.
    pub(crate) fn scans(self) -> usize
        ensures scans { result ≡ 4 * self.recipes }
        ensures most { MOST_SCANS ≡ 4 * Job.MOST_RECIPES }
    {
        4 * self.recipes as usize
    }
}

// The numbers of the scratch of the largest job by edition 2: `numbers_for` promises that they agree with its own.
pub const MOST_NUMBERS: usize = Job::MOST_PINS + 4 * Job::MOST_FILES + 8 * Job::MOST_RECIPES + 16;

// The scans of the largest job, and so does `scans`.
pub const MOST_SCANS: usize = 4 * Job::MOST_RECIPES;
