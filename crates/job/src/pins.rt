// The pins: files, and no file twice in a recipe.
ghost use Rattle.std.specs.Prelude.{◌≡◌, ◌||◌, ◌≤◌, length, get_or, leb, ltb};
ghost use Rattle.rules.specs.Check.{bad_pin, check_bounds};
ghost use Rattle.job.specs.Given.{the_recipes, the_pins};
ghost use Rattle.job.specs.Pins.{onwards, bad_from, Held, IsFirst, or_end};

use crate::Job;
use crate::placed::Placed;

// Whether file f is C or more, or was held last at a position from a on.
fn is_bad_pin(files: usize, held: &[usize], a: usize, f: usize) -> bool
    requires { files ≤ length held.now }
    ensures { result ≡ (leb files f || ltb a (get_or held.now f 0)) }
{
    files <= f || a < held[f]
}

// The lowest bad pin of the recipe from a up to e. `held` has for each file one more than the last position that holds it, and 0 for none, so that one comparison asks both.
fn first_bad_in(files: usize, pins: &[u16], held: &mut [usize], a: usize, e: usize) -> Option<usize>
    requires { (a ≤ e) × (e ≤ length pins.now) × Held files pins.now a held.old }
    ensures first { IsFirst (onwards a (bad_from files pins.now a)) e result }
    ensures held { Held files pins.now (or_end result e) held.new × (length held.new ≡ length held.old) }
{
    for k in a..e {
        let f = pins[k] as usize;
        if is_bad_pin(files, held, a, f) {
            return Some(k);
        }
        held[f] = k + 1;
    }
    None
}

// The lowest bad pin.
pub(crate) fn first_bad_pin(placed: Placed) -> Option<usize>
    requires { (check_bounds (the_recipes placed.book)).number ≡ 0 }
    ensures { IsFirst (bad_pin (the_pins placed.entry.book)) (length placed.entry.book.recipes.pins.now) result }
{
    let files = placed.book.files.sizes.len();
    let recipes = placed.book.recipes;
    let mut held = [0usize; Job::MOST_FILES];
    for j in 0..recipes.count() {
        let a = recipes.bounds[j] as usize;
        let e = recipes.bounds[j + 1] as usize;
        if let Some(k) = first_bad_in(files, recipes.pins, &mut held, a, e) {
            return Some(k);
        }
    }
    None
}
