// The values of a job's blocks.
ghost use Rattle.std.specs.Prelude.{◌≡◌, get_or};
ghost use Rattle.rules.specs.Writing.{header_figures, file_value, job_value};
ghost use Rattle.job.specs.Given.{the_job};

use crate::checked::Checked;
use job::entry_at;
use layout::{Kind, bounds_at, kind_of, pins_at};

impl Checked<'_> {
    // Value v of the header's block.
    fn figure(&self, v: u8) -> u16
        ensures { result ≡ get_or (header_figures self.now.header) v 0 }
    {
        let h = self.header;
        let figures = [h.files, h.recipes, h.pins, h.num, h.den, h.cap, h.k];
        entry_at(&figures, v as usize)
    }

    // Value v of file f: its size, and then side + 2·mark.
    fn file_value(&self, f: usize, v: u8) -> u16
        ensures { result ≡ file_value (the_job self.now.job self.now.book self.now.sides.now) f v }
    {
        let files = self.book.files;
        if v == 0 {
            return entry_at(files.sizes, f);
        }
        entry_at(self.sides, f) + 2 * entry_at(files.marks, f)
    }

    // Value v of block b.
    pub(crate) fn value(&self, b: u16, v: u8) -> u16
        ensures { result ≡ job_value (the_job self.now.job self.now.book self.now.sides.now) b v }
    {
        let recipes = self.book.recipes;
        match kind_of(self.header, b) {
            Kind::Header => self.figure(v),
            Kind::Files => self.file_value(126 * (b - 1) as usize + (v / 2) as usize, v % 2),
            Kind::Bounds => entry_at(
                recipes.bounds,
                253 * (b - bounds_at(self.header)) as usize + v as usize,
            ),
            Kind::Pins => entry_at(
                recipes.pins,
                253 * (b - pins_at(self.header)) as usize + v as usize,
            ),
        }
    }
}
