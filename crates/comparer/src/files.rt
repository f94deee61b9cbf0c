// 8 to 10: the differences of two jobs' files.
ghost use Rattle.std.specs.Prelude.{◌*◌, max};
ghost use Rattle.rules.specs.Lists.{in_turn};
ghost use Rattle.rules.specs.Compare.{file_differences};
ghost use Rattle.stored.specs.Steps.{job_taken};
ghost use Rattle.comparer.specs.Finding.{Adds, RoomFor};

use crate::notes::Notes;
use job::entry_at;
use stored::TakenUp;

impl Notes<'_> {
    // Size, side and mark of each file in rising number, which are zeros where a job lacks it.
    pub(crate) fn files(&mut self, old: &TakenUp, new: &TakenUp)
        requires { RoomFor (3 * max old.now.header.files new.now.header.files) self.old }
        ensures { let n = max old.now.header.files new.now.header.files in Adds (3 * n) self.old (in_turn (file_differences (job_taken old.now) (job_taken new.now)) n) self.new }
    {
        let (old_files, old_sides) = (old.book().files, old.sides());
        let (new_files, new_sides) = (new.book().files, new.sides());
        for f in 0..old.header.files.max(new.header.files) {
            let i = f as usize;
            self.figure(
                8,
                f,
                entry_at(old_files.sizes, i),
                entry_at(new_files.sizes, i),
            );
            self.figure(9, f, entry_at(old_sides, i), entry_at(new_sides, i));
            self.figure(
                10,
                f,
                entry_at(old_files.marks, i),
                entry_at(new_files.marks, i),
            );
        }
    }
}
