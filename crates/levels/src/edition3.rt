// Edition 3: the legal move of greatest vector, then of least distance, then of lowest number, by one walk over the files.
ghost use Rattle.std.specs.Prelude.{◌≡◌, true, ◌≤◌, ◌<◌, FitsSigned, IfSome, length, get_or, pos};
ghost use Rattle.std.specs.Int.{w32};
ghost use Rattle.choice.specs.Cases.{as_best};
ghost use Rattle.choice.specs.Reaching.{ListsFit};
ghost use Rattle.levels.specs.Vectors.{vector_choice};
ghost use Rattle.levels.specs.Leading.{goes_first, leads, least_of, rival_in, NextRival, led_in, fits_in, best_by};

use super::order::is_greater;
use super::vector::vector_of;
use choice::{Best, Standing, Window};
use tables::Extent;

// A legal move: the file, its vector, and the distance after it.
#[derive(Clone, Copy)]
pub(crate) struct Led {
    pub(crate) file: usize,
    pub(crate) vector: [i32; 3],
    pub(crate) dist: u64,
}

// A file that may go before the best so far, and its distance.
#[derive(Clone, Copy)]
pub(crate) struct Rival {
    pub(crate) file: usize,
    pub(crate) dist: u64,
}

// Whether a rival goes before the best so far, which is of lower number.
fn goes_first(rival: Led, led: Led) -> bool
    ensures { result ≡ goes_first rival led }
{
    is_greater(rival.vector, led.vector)
        || (!is_greater(led.vector, rival.vector) && rival.dist < led.dist)
}

// The best so far, against a rival.
fn challenge(rival: Led, led: Option<Led>) -> Led
    ensures { result ≡ leads rival led }
{
    match led {
        Some(led) if !goes_first(rival, led) => led,
        _ => rival,
    }
}

// The least gain of a file that may go before the best so far.
fn least_of(led: Option<Led>) -> i32
    ensures { result ≡ least_of led }
{
    match led {
        Some(led) => led.vector[0],
        None => i32::MIN,
    }
}

// File f as a rival: it is free, its gain is no less than this, and its move is legal. It takes what `choose_vector` takes, as in edition 1.
fn rival_at(
    window: Window,
    size: u32,
    least: i32,
    standing: Standing,
    scratch: &[u16],
    f: usize,
) -> Option<Rival>
    requires lists_fit { ListsFit standing scratch.now }
    requires file_in_bounds { f < length standing.sizes.now }
    ensures value { result ≡ rival_in window size least standing.entry scratch.now f }
    ensures gain_fits { FitsSigned w32 (get_or standing.entry.gains.now f (pos 0)) }
{
    let gain = standing.gains[f];
    if scratch[f] != 0 || gain < least {
        return None;
    }
    let dist = window.dist_after(size, standing.sides[f], standing.sizes[f]);
    (dist <= window.span).then_some(Rival { file: f, dist })
}

// The first rival from this file on. One of less gain than the best cannot go first, so no vector is made of it.
fn next_rival(
    window: Window,
    size: u32,
    least: i32,
    standing: Standing,
    scratch: &[u16],
    from: usize,
) -> Option<Rival>
    requires lists_fit { ListsFit standing scratch.now }
    requires from_in_bounds { from ≤ length standing.sizes.now }
    ensures { NextRival window size least standing.entry scratch.now from result }
{
    (from..standing.sizes.len()).find_map(|f| rival_at(window, size, least, standing, scratch, f))
}

// Whether the lists are those of a pass of this extent.
fn fit(extent: Extent, standing: Standing, scratch: usize) -> bool
    ensures { result ≡ fits_in extent standing.entry scratch }
{
    let zones = extent.zones();
    let files = zones.cells;
    let end = zones.counts + 4 * usize::from(extent.recipes);
    standing.sizes.len() == files
        && standing.sides.len() == files
        && (standing.gains.len() == files && files <= scratch)
        && end <= scratch
}

// The best legal move, of lists that fit.
fn first_of(
    window: Window,
    size: u32,
    standing: Standing,
    scratch: &[u16],
    extent: Extent,
) -> Option<Led>
    requires { fits_in extent standing (length scratch.now) ≡ true }
    ensures { result ≡ led_in extent window size standing.entry scratch.now }
{
    let mut led = None;
    let mut from = 0;
    // No walk by an index: each turn goes on behind the rival found.
    while let Some(rival) = next_rival(window, size, least_of(led), standing, scratch, from) {
        let rival_led = Led {
            file: rival.file,
            vector: vector_of(standing, scratch, extent, rival.file),
            dist: rival.dist,
        };
        led = Some(challenge(rival_led, led));
        from = rival.file + 1;
    }
    led
}

// What is answered of it: its gain is its level 1.
impl From<Led> for Best {
    ghost from_gives = { λ led best. best ≡ best_by led };

    fn from(led: Led) -> Best {
        Best {
            file: led.file,
            gain: led.vector[0],
            dist: led.dist,
        }
    }
}

// The best legal move, none where no move is legal or the lists do not fit; the locks, cells, starts and counts stand in the scratch.
pub fn choose_vector(
    window: Window,
    size: u32,
    standing: Standing,
    scratch: &[u16],
    extent: Extent,
) -> Option<Best>
    ensures value { as_best (length standing.entry.sizes.now) result ≡ vector_choice extent.files extent.recipes extent.pins window size standing.entry.sizes.now standing.entry.sides.now standing.entry.gains.now scratch.now }
    ensures file { IfSome result (λ best. best.file < length standing.entry.sizes.now) }
{
    if !fit(extent, standing, scratch.len()) {
        return None;
    }
    first_of(window, size, standing, scratch, extent).map(Best::from)
}
