// What a pass or a run is lent besides the job: document 01.

// The four move lists: file, gain when chosen, cut after, scans listed so far.
#[derive(Drop)]
pub struct Moves<'a> {
    pub tried: &'a mut [u16],
    pub gained: &'a mut [i32],
    pub cuts: &'a mut [u16],
    pub ends: &'a mut [u16],
}

// The two scan lists: recipe, kind.
#[derive(Drop)]
pub struct Scans<'a> {
    pub recipes: &'a mut [u16],
    pub kinds: &'a mut [u16],
}

// The gain list, the move lists, the scan lists and the scratch.
#[derive(Drop)]
pub struct Lent<'a> {
    pub gains: &'a mut [i32],
    pub moves: Moves<'a>,
    pub scans: Scans<'a>,
    pub scratch: &'a mut [u16],
}
