// What document 01's calls answer: a `Result`, whose numbers are in specs/Numbers.antt.
// Nothing runs here but the numbers of a refusal: the crate is the meaning of document 01 and the theorems about it.
#![tactic(auto)]

mod refusal;

pub use refusal::{Refusal, numbered};

// A number for no and its place; 0 and 0 is done.
#[derive(Clone, Copy, Default)]
pub struct Verdict {
    pub number: usize,
    pub place: usize,
}

// The measure: the cut and |A| of a job as it stands, and the numbers of unread files and of recipes that hold one.
#[derive(Clone, Copy, Default)]
pub struct Measured {
    pub cut: usize,
    pub size: u64,
    pub unread: usize,
    pub holding: usize,
}

// What a pass answers: the cut before; the cut and |A| after; moves tried and kept, scans, visits; unread files and recipes that hold one.
#[derive(Clone, Copy, Default)]
pub struct Passed {
    pub before: usize,
    pub cut: usize,
    pub size: u64,
    pub tried: u64,
    pub kept: u64,
    pub scans: u64,
    pub visits: u64,
    pub unread: usize,
    pub holding: usize,
}

// What a run answers: its counts are sums over the passes; with the number of passes and settled besides.
#[derive(Clone, Copy, Default)]
pub struct Ran {
    pub figures: Passed,
    pub passes: u64,
    pub settled: bool,
}

// The seven figures of a stored job's header: C, N, P, num, den, cap, k.
#[derive(Clone, Copy)]
pub struct Header {
    pub files: u16,
    pub recipes: u16,
    pub pins: u16,
    pub num: u16,
    pub den: u16,
    pub cap: u16,
    pub k: u16,
}

// What a call that hands out answers: how many bytes go to standard output, and how many after them to standard error.
#[derive(Clone, Copy)]
pub struct HandedOut {
    pub output: usize,
    pub errors: usize,
}

// What balancing answers: the moves made, and the cut and |A| after them; unread files and recipes that hold one.
#[derive(Clone, Copy, Default)]
pub struct Balanced {
    pub moves: usize,
    pub cut: usize,
    pub size: u64,
    pub unread: usize,
    pub holding: usize,
}

// A difference of two jobs: what differs, its number, and the old and the new figure.
#[derive(Clone, Copy, PartialEq, Eq)]
pub struct Difference {
    pub what: u16,
    pub number: u16,
    pub old: u16,
    pub new: u16,
}
