// The files and the recipes of a job: its lists but for the sides.
ghost use Rattle.std.specs.Prelude.{◌≡◌, [], ◌-◌, ◌<◌, length};
ghost use Rattle.rules.specs.Job.{view_of};
ghost use Rattle.rules.specs.Check.{short};
ghost use Rattle.job.specs.Parts.{of_recipes};
ghost use Rattle.job.specs.Pins.{IsFirst};

// The size and the mark of each file.
#[derive(Clone, Copy)]
pub struct Files<'a> {
    pub sizes: &'a [u16],
    pub marks: &'a [u16],
}

// Recipe j has the pins from bound j up to, not including, bound j + 1.
#[derive(Clone, Copy)]
pub struct Recipes<'a> {
    pub bounds: &'a [u16],
    pub pins: &'a [u16],
}

#[derive(Clone, Copy)]
pub struct Book<'a> {
    pub files: Files<'a>,
    pub recipes: Recipes<'a>,
}

// N: with fewer than two bounds it is 0.
pub fn recipe_count(bounds: &[u16]) -> usize
    ensures { result ≡ length bounds.now - 1 }
{
    bounds.len().saturating_sub(1)
}

// Recipe j's own part of the pins, or an empty part; the bounds may be let go before it.
pub fn view<'a, 'b>(bounds: &'b [u16], pins: &'a [u16], j: usize) -> &'a [u16]
    ensures { result.now ≡ view_of bounds.now pins.now j }
{
    let none = &pins[..0];
    if recipe_count(bounds) <= j {
        return none;
    }
    let a = bounds[j] as usize;
    let b = bounds[j + 1] as usize;
    pins.get(a..b).unwrap_or(none)
}

impl<'a> Recipes<'a> {
    // N.
    pub fn count(self) -> usize
        ensures { result ≡ length self.entry.bounds.now - 1 }
    {
        recipe_count(self.bounds)
    }

    // Recipe j's own part of the pins, or an empty part.
    pub fn view(self, j: usize) -> &'a [u16]
        ensures { result.now ≡ view_of self.entry.bounds.now self.entry.pins.now j }
    {
        view(self.bounds, self.pins, j)
    }

    // Recipe j has fewer than two pins.
    fn is_short(self, j: usize) -> bool
        requires { j < length self.bounds.now - 1 }
        ensures { result ≡ short (of_recipes self.entry.bounds.now []) j }
    {
        (self.bounds[j + 1] as usize) < 2 + self.bounds[j] as usize
    }

    // The lowest recipe that has fewer than two pins.
    pub(crate) fn first_short(self) -> Option<usize>
        ensures { IsFirst (short (of_recipes self.entry.bounds.now [])) (length self.entry.bounds.now - 1) result }
    {
        (0..self.count()).find(|j| self.is_short(*j))
    }
}
