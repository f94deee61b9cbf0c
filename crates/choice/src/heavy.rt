// The choice of the balancing: of the side that holds too much, the free file of greatest gain, then of lowest number.
ghost use Rattle.std.specs.Prelude.{◌≡◌, ◌≤◌, ◌<◌, IfSome, length, take};
ghost use Rattle.choice.specs.Cases.{as_file, as_side};
ghost use Rattle.choice.specs.Heavy.{free_in, heavy_in, leader_in, greatest_file};

use super::window::{Window, fit_files};

// The side to move from: 0 while A is too large, 1 while it is too small, and none once the split is balanced.
pub fn heavy_side(window: Window, size: u32) -> Option<u16>
    ensures value { as_side result ≡ heavy_in window size }
    ensures side { IfSome result (λ side. side < 2) }
{
    let held = u64::from(window.den) * u64::from(size);
    if held.abs_diff(window.aim) <= window.span {
        None
    } else if window.aim < held {
        Some(0)
    } else {
        Some(1)
    }
}

// Whether file f is free, and on this side.
fn is_free_on(side: u16, sides: &[u16], scratch: &[u16], f: usize) -> bool
    requires { (f < length sides.now) × (length sides.now ≤ length scratch.now) }
    ensures { result ≡ free_in side sides.now (take (length sides.now) scratch.now) f }
{
    scratch[f] == 0 && sides[f] == side
}

// The leader so far, against file f.
fn leader(
    side: u16,
    sides: &[u16],
    scratch: &[u16],
    gains: &[i32],
    best: Option<usize>,
    f: usize,
) -> Option<usize>
    requires gains_len { (length gains.now ≡ length sides.now) × (length sides.now ≤ length scratch.now) }
    requires best_in_bounds { IfSome best (λ best. best < length sides.now) × (f < length sides.now) }
    ensures leads { let n = length sides.now in as_file n result ≡ leader_in side sides.now (take n scratch.now) gains.now n (as_file n best) f }
    ensures file { IfSome result (λ file. file < length sides.now) }
{
    if is_free_on(side, sides, scratch, f) && best.is_none_or(|best| gains[best] < gains[f]) {
        Some(f)
    } else {
        best
    }
}

// The free file of this side with the greatest gain, the lowest number among equals; none where there is none or the
// lists do not fit. The locks of the files are the first numbers of the scratch.
pub fn greatest_on(side: u16, sides: &[u16], scratch: &[u16], gains: &[i32]) -> Option<usize>
    ensures value { as_file (length sides.now) result ≡ greatest_file side sides.now scratch.now gains.now }
    ensures file { IfSome result (λ file. file < length sides.now) }
{
    if !fit_files(sides.len(), scratch.len(), gains.len()) {
        return None;
    }
    let mut best = None;
    // Every file is asked, and a leader kept: `find_map`, by which edition 1 goes from one best to the next, would save nothing here.
    for f in 0..sides.len() {
        best = leader(side, sides, scratch, gains, best, f);
    }
    best
}
