// A pass in progress: a small record of numbers, handed in and handed back with each move.
// `best` moves are the shortest prefix of least cut so far, `least` is its cut and `atbest` its |A|.
ghost use Rattle.std.specs.Prelude.{◌≡◌, ◌+◌, ◌<◌, ◌^◌};
ghost use Rattle.rules.specs.Cases.{pass_numbers, balance_numbers};
ghost use Rattle.split.specs.Scanning.{visited_by};
ghost use Rattle.split.specs.Moving.{begun, shifted_to, counted_on};
ghost use Rattle.split.specs.Playing.{figures_from, balanced_from};

use rules::{Balanced, Passed};

#[derive(Clone, Copy)]
pub(crate) struct Progress {
    pub size: u64,
    pub cut: usize,
    pub moves: usize,
    pub best: usize,
    pub least: usize,
    pub atbest: u64,
    pub scans: usize,
    pub visits: u64,
}

impl Progress {
    pub fn new(size: u64, cut: usize) -> Self
        ensures { result ≡ begun size cut }
    {
        Self {
            size,
            cut,
            moves: 0,
            best: 0,
            least: cut,
            atbest: size,
            scans: 0,
            visits: 0,
        }
    }

    // |A| and the cut after a move.
    #[tactic(auto, unfolding(crate::specs::Moving::shifted_to))]
    pub fn shifted(self, size: u64, cut: usize) -> Self
        ensures { result ≡ shifted_to self size cut }
    {
        Self { size, cut, ..self }
    }

    // One scan more, which visits so many files.
    #[tactic(auto, unfolding(crate::specs::Scanning::visited_by))]
    pub fn visited(mut self, len: usize) -> Self
        requires { (self.scans < 2 ^ 63) × (self.visits + len < 2 ^ 63) }
        ensures { result ≡ visited_by self len }
    {
        self.scans += 1;
        self.visits += len as u64;
        self
    }

    // One move more: the best prefix so far is the shortest of least cut.
    #[tactic(auto, unfolding(crate::specs::Moving::counted_on))]
    pub fn counted(mut self) -> Self
        requires { self.moves < 2 ^ 32 }
        ensures { result ≡ counted_on self }
    {
        self.moves += 1;
        if self.cut < self.least {
            self.best = self.moves;
            self.least = self.cut;
            self.atbest = self.size;
        }
        self
    }

    // The figures of the pass, once its moves have ended; what could not be read is the job's.
    pub fn figures(self, before: usize, unread: usize, holding: usize) -> Passed
        ensures { pass_numbers result ≡ figures_from before unread holding self }
    {
        Passed {
            before,
            cut: self.least,
            size: self.atbest,
            tried: self.moves as u64,
            kept: self.best as u64,
            scans: self.scans as u64,
            visits: self.visits,
            unread,
            holding,
        }
    }

    // The answer of the balancing, once its moves have ended.
    pub fn balanced(self, unread: usize, holding: usize) -> Balanced
        ensures { balance_numbers result ≡ balanced_from unread holding self }
    {
        Balanced {
            moves: self.moves,
            cut: self.cut,
            size: self.size,
            unread,
            holding,
        }
    }
}
