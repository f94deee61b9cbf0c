// Linked lists of files in the list of links. A next or a head names a file, or the number of files, which is none: the list that is lent is all the
// memory there is, and it holds numbers alone.
// A previous is the place of the next or head that names its file.
// So no call asks which bucket a file is in, nor whether it is the first or the last there, and what is not there is neither read nor written.
ghost use Rattle.std.specs.Prelude.{◌≡◌, ◌+◌, ◌<◌, IfSome, max, get_or, set};
ghost use Rattle.buckets.specs.Links.{joined, emptied, entered, left, highest_in, as_top};
ghost use Rattle.buckets.specs.Lent.{SameBuckets};

use super::slots::Buckets;
use job::entry_at;

// A bucket that holds a file: its level, and its front file.
#[derive(Clone, Copy)]
pub(crate) struct Bucket {
    pub(crate) level: u16,
    pub(crate) front: u16,
}

impl Buckets<'_> {
    // Entry `at`, 0 where there is none.
    pub(crate) fn entry(&self, at: usize) -> u16
        ensures { result ≡ get_or self.now.links.now at 0 }
    {
        entry_at(self.links, at)
    }

    // Entry `at` becomes x; nothing where there is none.
    pub(crate) fn put(&mut self, at: usize, x: u16)
        ensures same_lists { SameBuckets self.old self.new }
        ensures value { self.new.links.now ≡ set self.old.links.now at x }
    {
        if at < self.links.len() {
            self.links[at] = x;
        }
    }

    // The next or head at this place names the file, or none; the previouses begin at back.
    fn join(&mut self, back: u16, at: u16, file: u16)
        ensures same_lists { SameBuckets self.old self.new }
        ensures value { self.new.links.now ≡ joined back at file self.old.links.now }
    {
        self.put(usize::from(at), file);
        self.put(usize::from(back) + usize::from(file), at);
    }

    // The heads name none, so many of them.
    pub(crate) fn empty(&mut self, none: u16, slots: usize)
        requires { slots < 65536 }
        ensures same_lists { SameBuckets self.old self.new }
        ensures value { self.new.links.now ≡ emptied none self.old.links.now slots }
    {
        // No `fill` of a range: a list that ends within the heads is filled up to its end.
        for s in 0..slots {
            self.put(usize::from(none) + s, none);
        }
    }

    // The file enters the front of the bucket whose head stands at this place.
    pub(crate) fn enter(&mut self, back: u16, head: u16, file: u16)
        ensures same_lists { SameBuckets self.old self.new }
        ensures value { self.new.links.now ≡ entered back head file self.old.links.now }
    {
        let first = self.entry(usize::from(head));
        self.join(back, file, first);
        self.join(back, head, file);
    }

    // The file leaves its bucket.
    pub(crate) fn leave(&mut self, back: u16, file: u16)
        ensures same_lists { SameBuckets self.old self.new }
        ensures value { self.new.links.now ≡ left back file self.old.links.now }
    {
        let next = self.entry(usize::from(file));
        let before = self.entry(usize::from(back) + usize::from(file));
        self.join(back, before, next);
    }

    // The top at this place is no less than this.
    pub(crate) fn raise(&mut self, at: usize, top: u16)
        ensures same_lists { SameBuckets self.old self.new }
        ensures value { self.new.links.now ≡ set self.old.links.now at (max (get_or self.old.links.now at 0) top) }
    {
        let risen = self.entry(at).max(top);
        self.put(at, risen);
    }

    // The highest bucket that holds a file, of those whose heads stand from here on and below the top.
    pub(crate) fn highest(&self, none: u16, from: u16, top: u16) -> Option<Bucket>
        ensures value { as_top result ≡ highest_in none from self.now.links.now top }
        ensures bucket { IfSome result (λ bucket. (bucket.level < top) × (bucket.front ≡ get_or self.now.links.now (from + bucket.level) 0)) }
    {
        for level in (0..top).rev() {
            let front = self.entry(usize::from(from) + usize::from(level));
            if front != none {
                return Some(Bucket { level, front });
            }
        }
        None
    }
}
