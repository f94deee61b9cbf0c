// What every choice goes by: the balance window, |A| after a move, its distance, and whether the lists fit.
ghost use Rattle.std.specs.Prelude.{◌≡◌, ◌&&◌, eqb, length};
ghost use Rattle.choice.specs.Choosing.{size_by, dist_by, fit_files};

// The balance window: den, and num·W and den times the tolerance, within which den·|A| must stay.
#[derive(Clone, Copy)]
pub struct Window {
    pub den: u16,
    pub aim: u64,
    pub span: u64,
}

// How the files stand: their sizes, the sides they are on, and their gains.
#[derive(Clone, Copy)]
pub struct Standing<'a> {
    pub sizes: &'a [u16],
    pub sides: &'a [u16],
    pub gains: &'a [i32],
}

impl Standing<'_> {
    // Whether there are a side and a gain for each file, and a lock for each at the start of a scratch of this length.
    pub(crate) fn fits(self, scratch: usize) -> bool
        ensures { result ≡ (eqb (length self.entry.sides.now) (length self.entry.sizes.now) && fit_files (length self.entry.sizes.now) scratch (length self.entry.gains.now)) }
    {
        let files = self.sizes.len();
        self.sides.len() == files && fit_files(files, scratch, self.gains.len())
    }
}

// |A| after the move of a file of this size from this side; 0 where A does not hold the file.
pub fn size_after(size: u32, side: u16, own: u16) -> u64
    ensures { result ≡ size_by size side own }
{
    let held = u64::from(size);
    let moved = u64::from(own);
    if side == 0 {
        held.saturating_sub(moved)
    } else {
        held + moved
    }
}

impl Window {
    // The distance after the move of a file of this size from this side.
    pub fn dist_after(self, size: u32, side: u16, own: u16) -> u64
        ensures { result ≡ dist_by self size side own }
    {
        let held = u64::from(self.den) * size_after(size, side, own);
        held.abs_diff(self.aim)
    }
}

// Whether lists of these lengths have a gain for each file, and a lock for each at the start of the scratch.
pub(crate) fn fit_files(files: usize, scratch: usize, gains: usize) -> bool
    ensures { result ≡ fit_files files scratch gains }
{
    gains == files && files <= scratch
}
