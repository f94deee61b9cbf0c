// Records noted one behind another, as numbers, four to a record: document 01 has them computed as numbers first, and then stored as records.
ghost use Rattle.std.specs.Prelude.{[], ◌∷◌};
ghost use Rattle.rules.specs.Compare.{figure};
ghost use Rattle.comparer.specs.Finding.{Adds, RoomFor};

use rules::Difference;

// So many records stand at the start of the numbers.
#[derive(Drop)]
pub(crate) struct Notes<'a> {
    pub(crate) numbers: &'a mut [u16],
    pub(crate) count: usize,
}

impl Notes<'_> {
    // A record behind those that are there.
    pub(crate) fn note(&mut self, d: Difference)
        requires { RoomFor 1 self.old }
        ensures { Adds 1 self.old (d ∷ []) self.new }
    {
        let at = 4 * self.count;
        self.numbers[at..at + 4].copy_from_slice(&[d.what, d.number, d.old, d.new]);
        self.count += 1;
    }

    // One where two figures differ.
    pub(crate) fn figure(&mut self, what: u16, number: u16, old: u16, new: u16)
        requires { RoomFor 1 self.old }
        ensures { Adds 1 self.old (figure what number old new) self.new }
    {
        if old != new {
            self.note(Difference {
                what,
                number,
                old,
                new,
            });
        }
    }
}
