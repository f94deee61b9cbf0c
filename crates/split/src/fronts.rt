// Edition 2's buckets in the scratch of a pass: entered before the first move, asked for the choice, kept up after each move. By edition 1 nothing of it is done.
ghost use Rattle.std.specs.Prelude.{◌≡◌, ◌+◌, ◌≤◌, ◌<◌, IfSome, length};
ghost use Rattle.rules.specs.Lists.{AllBelow};
ghost use Rattle.rules.specs.Job.{view_of};
ghost use Rattle.rules.specs.Split.{side_of};
ghost use Rattle.rules.specs.Theorems.{Binary};
ghost use Rattle.choice.specs.Cases.{as_best};
ghost use Rattle.buckets.specs.Entries.{entered_all, taken_out};
ghost use Rattle.buckets.specs.Offers.{chosen_is, chosen_front};
ghost use Rattle.tables.specs.Zones.{state_of};
ghost use Rattle.split.specs.Editions.{edition_number};
ghost use Rattle.split.specs.Links.{links_at, links_long, shape_of, HasLinks, entered_by, picked_is, picked_by, brought_all, touched_by, followed_by};

use super::editions::Edition;
use super::scan::{Moved, is_changed};
use buckets::{Buckets, Shape};
use choice::{Best, Standing, Window, choose};
use job::{Recipes, Scans};
use std::ops::Range;
use tables::Extent;

// Where the links stand in the scratch, which document 01 lends as one list of numbers: right behind the counts.
fn links_of(extent: Extent) -> Range<usize>
    ensures { (result.start ≡ links_at extent.files extent.recipes extent.pins) × (result.end ≡ result.start + links_long extent.files extent.recipes) }
{
    let n = 4 * (extent.recipes as usize);
    let from = extent.zones().counts + n;
    from..from + (2 * (extent.files as usize) + n + 5)
}

// No gain is over the number of recipes.
fn shape_of(extent: Extent) -> Shape
    ensures { result ≡ shape_of extent.files extent.recipes }
{
    Shape {
        files: extent.files,
        most: extent.recipes,
    }
}

// A function of its own, as `choose_front` and `follow` are: a proof knows what a struct leaves of a list that was handed over, and not of a part that is taken here.
fn enter(links: &mut [u16], shape: Shape, marks: &[u16], standing: Standing)
    ensures { links.new ≡ entered_all shape marks.now standing.entry.sides.now standing.entry.gains.now links.old }
{
    let mut buckets = Buckets { links, shape };
    buckets.enter_all(marks, standing.sides, standing.gains);
}

// Before the first move the free files enter.
#[tactic(auto, unfolding(crate::specs::Links::entered_by))]
pub(crate) fn enter_by(
    edition: Edition,
    scratch: &mut [u16],
    marks: &[u16],
    standing: Standing,
    extent: Extent,
)
    requires { HasLinks (edition_number edition) extent.files extent.recipes extent.pins scratch.old }
    ensures { let sides = standing.entry.sides.now in
        let gains = standing.entry.gains.now in
        scratch.new ≡ entered_by (edition_number edition) extent.files extent.recipes extent.pins marks.now sides gains scratch.old }
{
    match edition {
        Edition::One => {}
        Edition::Two => enter(
            &mut scratch[links_of(extent)],
            shape_of(extent),
            marks,
            standing,
        ),
    }
}

// The better of the two fronts.
fn choose_front(
    links: &mut [u16],
    shape: Shape,
    window: Window,
    size: u32,
    standing: Standing,
) -> Option<Best>
    ensures best_or_none { let s = standing.entry in
        chosen_is (as_best shape.files result) links.new ≡ chosen_front shape window size s.sizes.now s.sides.now s.gains.now links.old }
    ensures file { IfSome result (λ best. best.file < shape.files) }
{
    let mut buckets = Buckets { links, shape };
    buckets.choose_front(window, size, standing)
}

// The choice of this edition.
#[tactic(auto, unfolding(crate::specs::Links::picked_by))]
pub(crate) fn choose_by(
    edition: Edition,
    scratch: &mut [u16],
    window: Window,
    size: u32,
    standing: Standing,
    extent: Extent,
) -> Option<Best>
    requires files { length standing.sizes.now ≡ extent.files }
    requires has_links { HasLinks (edition_number edition) extent.files extent.recipes extent.pins scratch.old }
    ensures best_or_none { let s = standing.entry in
        picked_is (as_best extent.files result) scratch.new
        ≡ picked_by (edition_number edition) extent.files extent.recipes extent.pins window size s.sizes.now s.sides.now s.gains.now scratch.old }
    ensures file { IfSome result (λ best. best.file < extent.files) }
{
    match edition {
        Edition::One => choose(window, size, standing, scratch),
        Edition::Two => choose_front(
            &mut scratch[links_of(extent)],
            shape_of(extent),
            window,
            size,
            standing,
        ),
    }
}

// The scans of a move: the recipes of the job, and which of them were scanned, by what kind.
#[derive(Clone, Copy)]
pub(crate) struct MoveScans<'a> {
    pub recipes: Recipes<'a>,
    pub listed: &'a [u16],
    pub kinds: &'a [u16],
    ghost paired: { length listed.now ≡ length kinds.now },
}

impl<'a> MoveScans<'a> {
    ghost use Rattle.std.specs.Prelude.{◌-◌};
    ghost use Rattle.tables.specs.Zones.{part};

    // Those listed from one place up to another.
    pub fn new(recipes: Recipes<'a>, scans: &'a Scans, from: usize, to: usize) -> Self
        requires order { from ≤ to }
        requires within { (to ≤ length scans.now.recipes.now) × (to ≤ length scans.now.kinds.now) }
        ensures recipes_kept { (result.recipes.bounds.now ≡ recipes.entry.bounds.now) × (result.recipes.pins.now ≡ recipes.entry.pins.now) }
        ensures listed { (result.listed.now ≡ part from (to - from) scans.now.recipes.now) × (result.kinds.now ≡ part from (to - from) scans.now.kinds.now) }
    {
        Self {
            recipes,
            listed: &scans.recipes[from..to],
            kinds: &scans.kinds[from..to],
        }
    }
}

// What a move leaves: the files as they are after it, their gains, and its scans.
#[derive(Clone, Copy)]
pub(crate) struct AfterMove<'a> {
    pub moved: Moved<'a>,
    pub gains: &'a [i32],
    pub scans: MoveScans<'a>,
    ghost a_gain_each: { length gains.now ≡ length moved.sides.now },
    ghost pins_are_files: { AllBelow (length moved.sides.now) scans.recipes.pins.now },
}

impl AfterMove<'_> {
    ghost use Rattle.std.specs.Prelude.{[], ◌∷◌};
    ghost use Rattle.buckets.specs.Lent.{SameBuckets};
    ghost use Rattle.split.specs.Bringing.{changed, changed_all, brought};

    // File f goes to the front of the bucket of its side and gain if a scan of this kind changed it.
    #[tactic(auto, unfolding(rules::specs::Lists::those, rules::specs::Move::steps_by))]
    fn bring_one(self, buckets: &mut Buckets, f: u16, kind: u16)
        requires { f < length self.moved.sides.now }
        ensures same_lists { SameBuckets buckets.old buckets.new }
        ensures links_after { buckets.new.links.now ≡ brought self.entry (changed self.entry kind (f ∷ [])) buckets.old }
    {
        let Moved { side, sides, locks } = self.moved;
        let i = f as usize;
        if is_changed(locks[i], sides[i], side, 1 - side, kind) {
            buckets.to_front(sides[i], self.gains[i], f);
        }
    }

    // Pin by pin.
    fn bring_pins(self, buckets: &mut Buckets, pins: &[u16], kind: u16)
        requires { AllBelow (length self.moved.sides.now) pins.now }
        ensures same_lists { SameBuckets buckets.old buckets.new }
        ensures links_after { buckets.new.links.now ≡ brought self.entry (changed self.entry kind pins.now) buckets.old }
    {
        for f in pins {
            self.bring_one(buckets, *f, kind);
        }
    }

    // Scan by scan.
    fn bring_scans(self, buckets: &mut Buckets)
        ensures same_lists { SameBuckets buckets.old buckets.new }
        ensures links_after { buckets.new.links.now ≡ brought self.entry (changed_all self.entry) buckets.old }
    {
        let MoveScans {
            recipes,
            listed,
            kinds,
        } = self.scans;
        for (j, kind) in listed.iter().zip(kinds) {
            self.bring_pins(buckets, recipes.view(*j as usize), *kind);
        }
    }
}

// The moved file leaves its bucket, and the files that its scans changed enter anew.
fn follow<'a>(
    links: &mut [u16],
    shape: Shape,
    locks: &'a [u16],
    standing: Standing<'a>,
    f: u16,
    scans: MoveScans<'a>,
)
    requires file { f < length standing.sides.now }
    requires locks { length locks.now ≡ length standing.sides.now }
    requires gains { length standing.gains.now ≡ length standing.sides.now }
    requires sides { Binary standing.sides.now }
    requires pins { AllBelow (length standing.sides.now) scans.recipes.pins.now }
    ensures { let sides = standing.entry.sides.now in
        let look = view_of scans.entry.recipes.bounds.now scans.entry.recipes.pins.now in
        let touched = touched_by (state_of sides locks.now) (side_of sides f) look scans.entry.listed.now scans.entry.kinds.now in
        links.new ≡ brought_all shape sides standing.entry.gains.now touched (taken_out shape f links.old) }
{
    let moved = Moved {
        side: standing.sides[f as usize],
        sides: standing.sides,
        locks,
    };
    let after = AfterMove {
        moved,
        gains: standing.gains,
        scans,
    };
    let mut buckets = Buckets { links, shape };
    buckets.take_out(f);
    after.bring_scans(&mut buckets);
}

// After the move of file f the links of edition 2 follow.
#[tactic(auto, unfolding(crate::specs::Links::followed_by))]
pub(crate) fn follow_by(
    edition: Edition,
    scratch: &mut [u16],
    standing: Standing,
    f: usize,
    scans: MoveScans,
    extent: Extent,
)
    requires file { f < extent.files }
    requires gains { length standing.gains.now ≡ extent.files }
    requires sides { (length standing.sides.now ≡ extent.files) × Binary standing.sides.now }
    requires pins { AllBelow extent.files scans.recipes.pins.now }
    requires has_links { HasLinks (edition_number edition) extent.files extent.recipes extent.pins scratch.old }
    ensures { let s = standing.entry in
        let look = view_of scans.entry.recipes.bounds.now scans.entry.recipes.pins.now in
        let after = followed_by (edition_number edition) extent.files extent.recipes extent.pins s.gains.now s.sides.now look in
        scratch.new ≡ after scans.entry.listed.now scans.entry.kinds.now f scratch.old }
{
    match edition {
        Edition::One => {}
        Edition::Two => {
            let at = links_of(extent);
            let (front, behind) = scratch.split_at_mut(at.start);
            follow(
                &mut behind[..at.end - at.start],
                shape_of(extent),
                &front[..standing.sides.len()],
                standing,
                f as u16,
                scans,
            );
        }
    }
}
