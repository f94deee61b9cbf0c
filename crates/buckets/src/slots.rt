// The places in the list of links. With C files and a most of N it holds
//   C nexts, by file;  4N + 2 heads, by vault and gain;  C previouses, by file, and one number more, the previous of none;  two tops, by vault.
ghost use Rattle.std.specs.Prelude.{◌≡◌, ◌+◌, true, false, MatchOption};
ghost use Rattle.buckets.specs.Slots.{level_of, vault_at, head_at, back_at, top_at, fits_in, Fits};

// The number of files, and the most that a gain can be.
#[derive(Clone, Copy)]
pub struct Shape {
    pub files: u16,
    pub most: u16,
}

// The buckets of that shape, in a list of links that is lent.
#[derive(Drop)]
pub struct Buckets<'a> {
    pub links: &'a mut [u16],
    pub shape: Shape,
}

// The places of a shape where that of each next and head fits in a number of the list.
#[derive(Clone, Copy)]
pub(crate) struct Places {
    pub(crate) shape: Shape,
    ghost fit: { Fits shape },
}

impl Shape {
    // Its places, where they fit.
    pub(crate) fn places(self) -> Option<Places>
        ensures { MatchOption result (fits_in self ≡ false) (λ places. (fits_in self ≡ true) × (places.shape ≡ self)) }
    {
        let heads = 4 * usize::from(self.most) + 2;
        if usize::from(self.files) + heads < 65536 {
            Some(Places { shape: self })
        } else {
            None
        }
    }
}

impl Places {
    // The level of a gain, from 0 for minus the most to twice the most; gains beyond have the level of the nearest.
    fn level(self, gain: i32) -> u16
        ensures { result ≡ level_of self.shape.most gain }
    {
        let level = i64::from(gain) + i64::from(self.shape.most);
        level.clamp(0, i64::from(2 * self.shape.most)) as u16
    }

    // Where the heads of a vault begin.
    pub(crate) fn vault_at(self, side: u16) -> u16
        ensures { result ≡ self.shape.files + vault_at self.shape.most side }
    {
        if side == 0 {
            self.shape.files
        } else {
            self.shape.files + (2 * self.shape.most + 1)
        }
    }

    // Where the head of the bucket of a side and a gain stands.
    pub(crate) fn head_at(self, side: u16, gain: i32) -> u16
        ensures { result ≡ head_at self.shape side gain }
    {
        self.vault_at(side) + self.level(gain)
    }

    // Where the previouses begin.
    pub(crate) fn back_at(self) -> u16
        ensures { result ≡ back_at self.shape }
    {
        self.shape.files + (4 * self.shape.most + 2)
    }

    // Where a vault's top stands.
    pub(crate) fn top_at(self, side: u16) -> usize
        ensures { result ≡ top_at self.shape side }
    {
        let last = 2 * usize::from(self.shape.files) + (4 * usize::from(self.shape.most) + 2);
        if side == 0 { last + 1 } else { last + 2 }
    }

    // One more than the level of a gain: what the top must be for its bucket to be looked at.
    pub(crate) fn above(self, gain: i32) -> u16
        ensures { result ≡ level_of self.shape.most gain + 1 }
    {
        self.level(gain) + 1
    }
}
