// The scans of a move: its recipes are treated in rising number, and only a listed scan walks a recipe.
ghost use Rattle.std.specs.Prelude.{◌≡◌, ◌+◌, ◌-◌, ◌≤◌, ◌<◌, ◌^◌, length, take};
ghost use Rattle.rules.specs.Lists.{AllBelow};
ghost use Rattle.rules.specs.Job.{view_of};
ghost use Rattle.rules.proofs.Signed.{abs};
ghost use Rattle.job.specs.Given.{SameScans};
ghost use Rattle.tables.specs.Zones.{part, state_of};
ghost use Rattle.split.specs.Scanning.{changed_by, shifted_by, NearVisits, Fits, kind_by, kind_or_none, kinds_now, recount, treated, treat_all, Countable, Ready};

use super::moves::Span;
use super::progress::Progress;
use job::{Recipes, Scans};

// The way of a move: the side moved to, and where the counts of the side moved to and of the side left begin in the scratch;
// those of the locked files stand two lists further.
#[derive(Clone, Copy)]
pub(crate) struct Way {
    pub side: u16,
    pub files: usize,
    pub recipes: usize,
    pub there: usize,
    pub left: usize,
}

// The kinds of a recipe's scans at a move: 1 or 2, and 3 or 4.
#[derive(Clone, Copy)]
pub(crate) struct Kinds {
    pub first: Option<u16>,
    pub second: Option<u16>,
}

// What the scans of a move go by: the side moved to, and the side and the lock of each file after the move.
#[derive(Clone, Copy)]
pub(crate) struct Moved<'a> {
    pub side: u16,
    pub sides: &'a [u16],
    pub locks: &'a [u16],
    ghost two_sides: { side ≤ 1 },
    ghost a_lock_each: { length locks.now ≡ length sides.now },
}

// Whether a scan of this kind changes a file: it reaches the file on the sides that the kind names, if the file is free.
// The kinds are the numbers that the scan list holds. No branch: it is the innermost step of a pass.
pub(crate) fn is_changed(lock: u16, side: u16, there: u16, left: u16, kind: u16) -> bool
    ensures { result ≡ changed_by lock side there left kind }
{
    let reached = (kind == 1)
        | (kind == 3)
        | ((kind == 2) & (side == there))
        | ((kind == 4) & (side == left));
    (lock == 0) & reached
}

// A file's gain after a scan of this kind.
fn shifted(g: i32, lock: u16, side: u16, there: u16, left: u16, kind: u16) -> i32
    requires { abs g < 2 ^ 31 - 1 }
    ensures { result ≡ shifted_by g lock side there left kind }
{
    if is_changed(lock, side, there, left, kind) {
        if (kind == 1) | (kind == 4) {
            return g + 1;
        }
        return g - 1;
    }
    g
}

impl Moved<'_> {
    ghost use Rattle.rules.specs.Move.{scan_pins};
    ghost use Rattle.split.specs.Scanning.{RoomFor, scanned, scan_if};

    // One scan over the pins of its recipe, whole: an unread file is locked, so that nothing of it changes.
    fn scan_pins(self, gains: &mut [i32], pins: &[u16], kind: u16)
        requires a_gain_each { length gains.old ≡ length self.sides.now }
        requires pins_are_files { AllBelow (length self.sides.now) pins.now }
        requires room_for { RoomFor gains.old (length pins.now) }
        ensures { gains.new ≡ scan_pins (state_of self.entry.sides.now self.entry.locks.now) self.entry.side kind pins.now gains.old }
    {
        let Moved { side, sides, locks } = self;
        let left = 1 - side;
        for pin in pins {
            let f = *pin as usize;
            gains[f] = shifted(gains[f], locks[f], sides[f], side, left, kind);
        }
    }

    // A scan of recipe j, listed and made, where there is a kind.
    #[tactic(auto, unfolding(crate::specs::Scanning::scan_if))]
    fn scan_if(
        self,
        gains: &mut [i32],
        scans: &mut Scans,
        pins: &[u16],
        j: u16,
        kind: Option<u16>,
        p: Progress,
    ) -> Progress
        requires a_gain_each { length gains.old ≡ length self.sides.now }
        requires pins_are_files { AllBelow (length self.sides.now) pins.now }
        requires near_visits { NearVisits gains.old p.visits }
        requires fits { let before = scanned gains.old scans.old.recipes.now scans.old.kinds.now p in
            Fits (scan_if (state_of self.sides.now self.locks.now) self.side j pins.now kind before) }
        ensures same_lists { SameScans scans.old scans.new }
        ensures scanned_after { let before = scanned gains.old scans.old.recipes.now scans.old.kinds.now p in
            scanned gains.new scans.new.recipes.now scans.new.kinds.now result
            ≡ scan_if (state_of self.entry.sides.now self.entry.locks.now) self.entry.side j pins.now kind before }
    {
        let Some(kind) = kind else {
            return p;
        };
        let at = p.scans;
        scans.recipes[at] = j;
        scans.kinds[at] = kind;
        self.scan_pins(gains, pins, kind);
        p.visited(pins.len())
    }
}

// By a count of files: the first kind where there is none, the next where there is one and it is free, else none. Kinds 1 and 2 go by T, 3 and 4 by F.
fn kind_by(first: u16, count: u16, locked: u16) -> Option<u16>
    requires { (0 < first) × (first < 65535) }
    ensures { result ≡ kind_or_none (kind_by first count locked) }
{
    match (count, locked) {
        (0, _) => Some(first),
        (1, 0) => Some(first + 1),
        _ => None,
    }
}

// The kinds of recipe j's scans by its counts; then the moved file leaves one side and joins the other, locked.
#[tactic(auto, unfolding(crate::specs::Scanning::recount))]
fn recount_one(scratch: &mut [u16], j: u16, way: Way) -> Kinds
    requires { Countable way scratch.old j }
    ensures { (result ≡ kinds_now way j scratch.old) × (scratch.new ≡ recount way j scratch.old) }
{
    let k = j as usize;
    let left = way.left + k;
    let there = way.there + k;
    let locked = there + 2 * way.recipes;
    let staying = left + 2 * way.recipes;
    let f = scratch[left] - 1;
    let t = scratch[there];
    let l = scratch[locked];
    let held = scratch[staying];
    let joined = t + 1;
    let first = kind_by(1, t, l);
    let second = kind_by(3, f, held);
    scratch[left] = f;
    scratch[there] = joined;
    scratch[locked] = l + 1;
    Kinds { first, second }
}

// The recipes in these cells, one after the other: the counts of each, then its scans, kinds 1 or 2 before 3 or 4.
pub(crate) fn treat_all(
    gains: &mut [i32],
    scans: &mut Scans,
    scratch: &mut [u16],
    sides: &[u16],
    recipes: Recipes,
    cells: Span,
    way: Way,
    p: Progress,
) -> Progress
    requires two_sides { way.side ≤ 1 }
    requires cells_in_scratch { (way.files ≤ cells.from) × (cells.from ≤ cells.to) × (cells.to ≤ length scratch.old) }
    requires a_gain_each { (length gains.old ≡ way.files) × (length sides.now ≡ way.files) }
    requires ready { Ready way (view_of recipes.bounds.now recipes.pins.now) cells.to (part cells.from (cells.to - cells.from) scratch.old) scratch.old }
    requires near_visits { NearVisits gains.old p.visits }
    requires fits { let seen = state_of sides.now (take way.files scratch.old) in
        let own = part cells.from (cells.to - cells.from) scratch.old in
        let before = treated scratch.old gains.old scans.old.recipes.now scans.old.kinds.now p in
        Fits (treat_all seen way (view_of recipes.bounds.now recipes.pins.now) own before).scanned }
    ensures same_lists { SameScans scans.old scans.new }
    ensures treated_after { let seen = state_of sides.now (take way.files scratch.old) in
        let own = part cells.from (cells.to - cells.from) scratch.old in
        let before = treated scratch.old gains.old scans.old.recipes.now scans.old.kinds.now p in
        treated scratch.new gains.new scans.new.recipes.now scans.new.kinds.now result
        ≡ treat_all seen way (view_of recipes.entry.bounds.now recipes.entry.pins.now) own before }
{
    let mut q = p;
    for i in cells.from..cells.to {
        let j = scratch[i];
        let own = recipes.view(j as usize);
        let kinds = recount_one(scratch, j, way);
        let moved = Moved {
            side: way.side,
            sides,
            locks: &scratch[..way.files],
        };
        q = moved.scan_if(gains, scans, own, j, kinds.first, q);
        q = moved.scan_if(gains, scans, own, j, kinds.second, q);
    }
    q
}
