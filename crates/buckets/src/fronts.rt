// Edition 2 of the choice: only the front file of each vault's highest nonempty bucket is considered.
ghost use Rattle.std.specs.Prelude.{◌≡◌, ◌<◌, IfSome};
ghost use Rattle.choice.specs.Cases.{as_best};
ghost use Rattle.buckets.specs.Offers.{front_in, if_file, offer_of, offered, first_offered, chosen_is, chosen_front};
ghost use Rattle.buckets.specs.Lent.{SameBuckets};

use super::order::gain_at;
use super::slots::{Buckets, Places};
use choice::{Best, Standing, Window};
use job::entry_at;

// The move of a front file, if it is legal.
fn offer(window: Window, size: u32, standing: Standing, file: u16) -> Option<Best>
    ensures { result ≡ offered window size standing.entry.sizes.now standing.entry.sides.now standing.entry.gains.now file }
{
    let at = usize::from(file);
    let dist = window.dist_after(
        size,
        entry_at(standing.sides, at),
        entry_at(standing.sizes, at),
    );
    (dist <= window.span).then_some(Best {
        file: at,
        gain: gain_at(standing.gains, at),
        dist,
    })
}

// Of two offers the greater gain, then the less distance, then the one from A.
fn first_of(a: Option<Best>, b: Option<Best>) -> Option<Best>
    ensures { result ≡ first_offered a b }
{
    match (a, b) {
        (Some(a), Some(b)) if a.gain < b.gain || (a.gain <= b.gain && b.dist < a.dist) => Some(b),
        (Some(a), _) => Some(a),
        (None, b) => b,
    }
}

impl Buckets<'_> {
    // The front file of a vault's highest nonempty bucket, to which its top is lowered.
    fn find_front(&mut self, places: Places, side: u16) -> Option<u16>
        ensures same_lists { SameBuckets self.old self.new }
        ensures links { self.new.links.now ≡ (front_in places.shape side self.old.links.now).links }
        ensures file { result ≡ if_file places.shape.files (front_in places.shape side self.old.links.now).file }
    {
        let from = places.vault_at(side);
        let at = places.top_at(side);
        let bucket = self.highest(places.shape.files, from, self.entry(at));
        self.put(at, bucket.map_or(0, |bucket| bucket.level + 1));
        let front = bucket.map(|bucket| bucket.front);
        front.filter(|file| *file < places.shape.files)
    }

    // The move of that file, if it is legal.
    fn offer_from(
        &mut self,
        places: Places,
        side: u16,
        window: Window,
        size: u32,
        standing: Standing,
    ) -> Option<Best>
        ensures same_lists { SameBuckets self.old self.new }
        ensures links { self.new.links.now ≡ (front_in places.shape side self.old.links.now).links }
        ensures offer { let n = places.shape.files in
            as_best n result ≡ offer_of window size standing.entry.sizes.now standing.entry.sides.now standing.entry.gains.now n (front_in places.shape side self.old.links.now).file }
        ensures file { IfSome result (λ best. best.file < places.shape.files) }
    {
        let front = self.find_front(places, side)?;
        offer(window, size, standing, front)
    }

    // The best of the two vaults' front files whose move is legal; none where neither has one. Each top comes down to its highest nonempty bucket.
    pub fn choose_front(&mut self, window: Window, size: u32, standing: Standing) -> Option<Best>
        ensures same_lists { SameBuckets self.old self.new }
        ensures value { chosen_is (as_best self.old.shape.files result) self.new.links.now ≡ chosen_front self.old.shape window size standing.entry.sizes.now standing.entry.sides.now standing.entry.gains.now self.old.links.now }
        ensures file { IfSome result (λ best. best.file < self.old.shape.files) }
    {
        let places = self.shape.places()?;
        let from_a = self.offer_from(places, 0, window, size, standing);
        let from_b = self.offer_from(places, 1, window, size, standing);
        first_of(from_a, from_b)
    }
}
