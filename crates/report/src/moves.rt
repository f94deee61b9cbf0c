// The moves of a pass with their scans, and the gain list.
#![tactic(auto, unfolding(crate::specs::Laying::longest, crate::specs::Laying::widest))]

ghost use Rattle.std.specs.Prelude.{◌≡◌, ◌+◌, ◌-◌, ◌*◌, ◌<◌, ◌≤◌, [], ◌∷◌, pos, length, get_or};
ghost use Rattle.rules.specs.Report.{line};
ghost use Rattle.rules.specs.Trace.{signed, scan_lines, scans_before, move_lines, moves_lines, bad_end};
ghost use Rattle.report.specs.Bytes.{gain_bytes, scan_bytes, all_scans, move_bytes};
ghost use Rattle.report.specs.Cases.{listed};
ghost use Rattle.report.specs.Laying.{Ahead};
ghost use Rattle.report.specs.Tracing.{MovesHeld, move_line, gains_line, move_room};
ghost use Rattle.report.specs.Writing.{Wrote};

use crate::Listing;
use crate::text::Text;

// After one space, with its sign where it is below zero.
fn put_signed(text: &mut Text, gain: i32)
    requires { Ahead text.old.at gain_bytes }
    ensures { Wrote (signed gain) gain_bytes text.old text.new }
{
    text.plain(b" ");
    text.number(gain);
}

pub(crate) fn put_gains(text: &mut Text, gains: &[i32])
    requires { Ahead text.old.at (6 + gain_bytes * length gains.now) }
    ensures { Wrote (gains_line gains.now) (6 + gain_bytes * length gains.now) text.old text.new }
{
    text.plain(b"gains");
    for gain in gains {
        put_signed(text, *gain);
    }
    text.put(b'\n');
}

fn put_scan(text: &mut Text, recipe: u16, kind: u16)
    requires { Ahead text.old.at scan_bytes }
    ensures { Wrote (line "scan" (recipe ∷ kind ∷ [])) scan_bytes text.old text.new }
{
    text.form(b"scan 0 1\n", &[recipe as u64, kind as u64]);
}

fn put_own_line(text: &mut Text, file: u16, gain: i32, cut: u16)
    requires { Ahead text.old.at move_bytes }
    ensures { Wrote (move_line file gain cut) move_bytes text.old text.new }
{
    text.form(b"move 0", &[file as u64]);
    put_signed(text, gain);
    text.form(b" 0\n", &[cut as u64]);
}

impl Listing<'_> {
    // Where the scans of move i begin: where those of the move before it end.
    fn scans_before(self, i: usize) -> usize
        requires { i ≤ length self.ends.now }
        ensures { result ≡ scans_before (listed self.entry) i }
    {
        if i == 0 {
            return 0;
        }
        self.ends[i - 1] as usize
    }

    // The scans of move i end before they begin, or beyond the scan lists.
    pub(crate) fn bad_end(self, i: usize) -> bool
        requires { i < length self.ends.now }
        ensures { result ≡ bad_end (listed self.entry) i }
    {
        let end = self.ends[i] as usize;
        end < self.scans_before(i) || self.recipes.len() < end || self.kinds.len() < end
    }

    fn put_scans(self, text: &mut Text, first: usize, end: usize)
        requires ahead { Ahead text.old.at (scan_bytes * (end - first)) }
        requires recipes_held { end ≤ length self.recipes.now }
        requires kinds_held { end ≤ length self.kinds.now }
        ensures { Wrote (scan_lines (listed self.entry) first (end - first)) (scan_bytes * (end - first)) text.old text.new }
    {
        for k in first..end {
            put_scan(text, self.recipes[k], self.kinds[k]);
        }
    }

    fn put_move(self, text: &mut Text, i: usize)
        requires ahead { Ahead text.old.at (move_bytes + scan_bytes * all_scans) }
        requires moves_held { MovesHeld (i + 1) (listed self) }
        ensures wrote { Wrote (move_lines (listed self.entry) i) (move_room (listed self.entry) i) text.old text.new }
        ensures few_scans { get_or self.entry.ends.now i 0 < all_scans }
    {
        let end = self.ends[i] as usize;
        put_own_line(text, self.tried[i], self.gained[i], self.cuts[i]);
        self.put_scans(text, self.scans_before(i), end);
    }

    // The first n moves.
    pub(crate) fn put_moves(self, text: &mut Text, n: usize)
        requires ahead { Ahead text.old.at (move_bytes * n + scan_bytes * (2 * all_scans)) }
        requires moves_held { MovesHeld n (listed self) }
        ensures wrote { Wrote (moves_lines (listed self.entry) n) (move_bytes * n + scan_bytes * scans_before (listed self.entry) n) text.old text.new }
        ensures few_scans { scans_before (listed self.entry) n < all_scans }
    {
        for i in 0..n {
            self.put_move(text, i);
        }
    }
}
