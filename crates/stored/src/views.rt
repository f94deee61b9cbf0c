// A stored job that was taken up, as the calls above take a job.
ghost use Rattle.std.specs.Prelude.{◌≡◌, ◌+◌, take};
ghost use Rattle.stored.specs.Steps.{figures_in};

use crate::{TakenUp, figures_of};
use job::{Book, Files, Job, Recipes};

impl TakenUp {
    // Its figures.
    pub fn job(&self) -> Job
        ensures { result ≡ figures_in self.now.header }
    {
        figures_of(self.header)
    }

    // Its files and recipes.
    pub fn book(&self) -> Book<'_>
        ensures files { (result.files.sizes.now ≡ take self.now.header.files self.now.sizes) × (result.files.marks.now ≡ take self.now.header.files self.now.marks) }
        ensures recipes { (result.recipes.bounds.now ≡ take (self.now.header.recipes + 1) self.now.bounds) × (result.recipes.pins.now ≡ take self.now.header.pins self.now.pins) }
    {
        let files = self.header.files as usize;
        let bounds = self.header.recipes as usize + 1;
        let pins = self.header.pins as usize;
        Book {
            files: Files {
                sizes: &self.sizes[..files],
                marks: &self.marks[..files],
            },
            recipes: Recipes {
                bounds: &self.bounds[..bounds],
                pins: &self.pins[..pins],
            },
        }
    }

    // The sides of its files.
    pub fn sides(&self) -> &[u16]
        ensures { result.now ≡ take self.now.header.files self.now.sides }
    {
        &self.sides[..self.header.files as usize]
    }
}
