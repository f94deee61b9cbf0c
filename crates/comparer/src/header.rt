// 1 to 7: the differences of two headers, with number 0.
ghost use Rattle.rules.specs.Compare.{head_differences};
ghost use Rattle.comparer.specs.Finding.{Adds, RoomFor};

use crate::notes::Notes;
use rules::Header;

impl Notes<'_> {
    pub(crate) fn header(&mut self, old: Header, new: Header)
        requires { RoomFor 7 self.old }
        ensures { Adds 7 self.old (head_differences old new) self.new }
    {
        self.figure(1, 0, old.files, new.files);
        self.figure(2, 0, old.recipes, new.recipes);
        self.figure(3, 0, old.pins, new.pins);
        self.figure(4, 0, old.num, new.num);
        self.figure(5, 0, old.den, new.den);
        self.figure(6, 0, old.cap, new.cap);
        self.figure(7, 0, old.k, new.k);
    }
}
