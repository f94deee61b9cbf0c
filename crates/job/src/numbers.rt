// Entries of lists, and tests as numbers.
ghost use Rattle.std.specs.Prelude.{◌≡◌, ◌*◌, ◌≤◌, get_or};
ghost use Rattle.rules.specs.Lists.{«bit»};

// A two-byte number as an index.
pub fn wide(x: u16) -> usize
    ensures { result ≡ x }
{
    x as usize
}

// Entry k, 0 where there is none.
pub fn entry_at(list: &[u16], k: usize) -> u16
    ensures { result ≡ get_or list.now k 0 }
{
    list.get(k).copied().unwrap_or(0)
}

pub fn bit(test: bool) -> usize
    ensures { (result ≡ «bit» test) × (result ≤ 1) }
{
    usize::from(test)
}

// x where the test passes, else 0.
pub(crate) fn when(test: bool, x: u64) -> u64
    ensures { (result ≡ «bit» test * x) × (result ≤ x) }
{
    if test { x } else { 0 }
}
