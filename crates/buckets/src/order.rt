// The free files in the order in which they entered, the latest first: the links stand for it, and it is nowhere stored.
ghost use Rattle.std.specs.Prelude.{◌≡◌, get_or, pos};
ghost use Rattle.buckets.specs.Entries.{cleared, entered_at, entered_if, entered_all, taken_out, brought_front};
ghost use Rattle.buckets.specs.Lent.{SameBuckets};

use super::slots::{Buckets, Places};
use job::entry_at;

// Gain f, 0 where there is none.
pub(crate) fn gain_at(gains: &[i32], f: usize) -> i32
    ensures { result ≡ get_or gains.now f (pos 0) }
{
    gains.get(f).copied().unwrap_or(0)
}

impl Buckets<'_> {
    // No file is in any bucket, and the tops are 0.
    fn clear(&mut self, places: Places)
        ensures same_lists { SameBuckets self.old self.new }
        ensures value { self.new.links.now ≡ cleared places.shape self.old.links.now }
    {
        self.empty(places.shape.files, 4 * usize::from(places.shape.most) + 2);
        self.put(places.top_at(0), 0);
        self.put(places.top_at(1), 0);
    }

    // The file enters the front of the bucket of this side and gain, and the vault's top is above it.
    fn enter_at(&mut self, places: Places, side: u16, gain: i32, file: u16)
        ensures same_lists { SameBuckets self.old self.new }
        ensures value { self.new.links.now ≡ entered_at places.shape side gain file self.old.links.now }
    {
        self.enter(places.back_at(), places.head_at(side, gain), file);
        self.raise(places.top_at(side), places.above(gain));
    }

    // The file enters its bucket if it is free.
    fn enter_free(&mut self, places: Places, mark: u16, side: u16, gain: i32, file: u16)
        ensures same_lists { SameBuckets self.old self.new }
        ensures value { self.new.links.now ≡ entered_if mark places.shape side gain file self.old.links.now }
    {
        if mark == 0 {
            self.enter_at(places, side, gain, file);
        }
    }

    // No file is in any bucket, then the free files enter in rising number, each at the front.
    pub fn enter_all(&mut self, marks: &[u16], sides: &[u16], gains: &[i32])
        ensures same_lists { SameBuckets self.old self.new }
        ensures value { self.new.links.now ≡ entered_all self.old.shape marks.now sides.now gains.now self.old.links.now }
    {
        let Some(places) = self.shape.places() else {
            return;
        };
        self.clear(places);
        for f in 0..places.shape.files {
            let at = usize::from(f);
            self.enter_free(
                places,
                entry_at(marks, at),
                entry_at(sides, at),
                gain_at(gains, at),
                f,
            );
        }
    }

    // The file leaves its bucket.
    pub fn take_out(&mut self, file: u16)
        ensures same_lists { SameBuckets self.old self.new }
        ensures value { self.new.links.now ≡ taken_out self.old.shape file self.old.links.now }
    {
        if let Some(places) = self.shape.places() {
            self.leave(places.back_at(), file);
        }
    }

    // The file leaves its bucket, and enters the front of the one of this side and gain.
    pub fn to_front(&mut self, side: u16, gain: i32, file: u16)
        ensures same_lists { SameBuckets self.old self.new }
        ensures value { self.new.links.now ≡ brought_front self.old.shape side gain file self.old.links.now }
    {
        if let Some(places) = self.shape.places() {
            self.leave(places.back_at(), file);
            self.enter_at(places, side, gain, file);
        }
    }
}
