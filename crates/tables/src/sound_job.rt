// The lists of a job that the check let through, as cells, counts and gains are built from them.
ghost use Rattle.std.specs.Prelude.{◌≡◌, length};
ghost use Rattle.rules.specs.Theorems.{Binary};
ghost use Rattle.tables.specs.Building.{Buildable};

use super::zones::Extent;
use job::{Recipes, count_on};

#[derive(Clone, Copy)]
pub(crate) struct SoundJob<'a> {
    pub sides: &'a [u16],
    pub marks: &'a [u16],
    pub recipes: Recipes<'a>,
    ghost marks_long: { length marks.now ≡ length sides.now },
    ghost binary: { Binary sides.now },
    ghost buildable: { Buildable recipes.bounds.now recipes.pins.now (length sides.now) },
}

impl<'a> SoundJob<'a> {
    ghost use Rattle.std.specs.Prelude.{◌-◌};
    ghost use Rattle.rules.specs.Job.{view_of};
    ghost use Rattle.tables.specs.Zones.{extent_of};
    ghost use Rattle.tables.specs.Building.{two_readable};

    pub fn extent(self) -> Extent
        ensures { result ≡ extent_of (length self.entry.sides.now) (length self.entry.recipes.bounds.now - 1) (length self.entry.recipes.pins.now) }
    {
        Extent {
            files: self.sides.len() as u16,
            recipes: self.recipes.count() as u16,
            pins: self.recipes.pins.len() as u16,
        }
    }

    // Recipe j, or an empty part where fewer than two of its files are readable: it has no cell and no count, so no move scans it.
    pub fn two_readable(self, j: usize) -> &'a [u16]
        ensures { result.now ≡ two_readable self.entry.marks.now (view_of self.entry.recipes.bounds.now self.entry.recipes.pins.now j) }
    {
        let recipe = self.recipes.view(j);
        if recipe.len() < 2 + count_on(recipe, self.marks, 2) {
            return &recipe[0..0];
        }
        recipe
    }
}
