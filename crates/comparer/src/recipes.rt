// 11: the differences of two jobs' recipes.
ghost use Rattle.std.specs.Prelude.{◌≡◌, max};
ghost use Rattle.rules.specs.Lists.{in_turn};
ghost use Rattle.rules.specs.Compare.{«same», recipe_differences};
ghost use Rattle.stored.specs.Steps.{job_taken};
ghost use Rattle.comparer.specs.Finding.{Adds, RoomFor};

use crate::notes::Notes;
use rules::Difference;
use stored::TakenUp;

// Whether two pin sequences are the same: the same pins in the same order.
#[tactic(auto, using(crate::proofs::Differences::same_pointwise))]
fn same(a: &[u16], b: &[u16]) -> bool
    ensures { result ≡ «same» a.now b.now }
{
    a == b
}

impl Notes<'_> {
    // Each in rising number, with the two lengths where the pin sequences differ; a recipe that a job lacks is empty.
    pub(crate) fn recipes(&mut self, old: &TakenUp, new: &TakenUp)
        requires { RoomFor (max old.now.header.recipes new.now.header.recipes) self.old }
        ensures { let n = max old.now.header.recipes new.now.header.recipes in Adds n self.old (in_turn (recipe_differences (job_taken old.now) (job_taken new.now)) n) self.new }
    {
        let (old_recipes, new_recipes) = (old.book().recipes, new.book().recipes);
        for j in 0..old.header.recipes.max(new.header.recipes) {
            let a = old_recipes.view(j as usize);
            let b = new_recipes.view(j as usize);
            if !same(a, b) {
                self.note(Difference {
                    what: 11,
                    number: j,
                    old: a.len() as u16,
                    new: b.len() as u16,
                });
            }
        }
    }
}
