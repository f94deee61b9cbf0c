// One pass, and the balancing that makes a start for it.
#![tactic(auto)]

mod balancing;
mod editions;
mod from_job;
mod fronts;
mod moves;
mod progress;
mod scan;

ghost use Rattle.std.specs.Prelude.{◌≡◌, ◌≤◌, ◌<◌, length, get_or, pos};
ghost use Rattle.rules.specs.Cases.{as_figures};
ghost use Rattle.rules.specs.Run.{ended_of, pass_ends};
ghost use Rattle.job.specs.Given.{the_limits, the_job, contents, SameMoves, SameScans, SameLists};
ghost use Rattle.split.specs.Editions.{edition_number};
ghost use Rattle.split.specs.Movable.{Movable};
ghost use Rattle.split.specs.Passing.{lists_of, board_of, Noted, moved_by, MoveFits, Followable};

pub use balancing::balance;
use choice::{Best, Standing};
use editions::Edition;
pub use from_job::refused;
use from_job::{extent_of, lengths_of, two_byte_sizes, window_of};
use fronts::{MoveScans, choose_by, enter_by, follow_by};
use job::{Book, Job, Lent, Moves, Scans};
use moves::treat_move;
use progress::Progress;
use rules::{Passed, Refusal};
use tables::{end_moves, end_scans, lay_out};

// The entries of move `at`: its file, its gain when chosen, the cut after it and the scans listed so far.
fn note(moves: &mut Moves, at: usize, chosen: Best, p: Progress)
    requires file { chosen.file < 65536 }
    requires numbers { (at < 65536) × (p.cut < 65536) × (p.scans < 65536) }
    requires room { (at < length moves.old.tried.now) × (at < length moves.old.gained.now) × (at < length moves.old.cuts.now) × (at < length moves.old.ends.now) }
    ensures same_lists { SameMoves moves.old moves.new }
    ensures entries { Noted at chosen.file chosen.gain p.cut p.scans moves.old moves.new }
{
    moves.tried[at] = chosen.file as u16;
    moves.gained[at] = chosen.gain;
    moves.cuts[at] = p.cut as u16;
    moves.ends[at] = p.scans as u16;
}

// The chosen file is moved, the move noted, and the buckets follow.
fn make_move(
    edition: Edition,
    book: Book,
    sides: &mut [u16],
    gains: &mut [i32],
    moves: &mut Moves,
    scans: &mut Scans,
    scratch: &mut [u16],
    chosen: Best,
    p: Progress,
) -> Progress
    requires safe { let before = board_of sides.old gains.old moves.old scans.old scratch.old p in
        Movable book.files.sizes.now book.recipes.bounds.now book.recipes.pins.now chosen.file before.sides before.rest }
    requires fits { let before = board_of sides.old gains.old moves.old scans.old scratch.old p in
        MoveFits book.files.sizes.now book.recipes.bounds.now book.recipes.pins.now chosen.file before }
    requires links_can_follow { let before = board_of sides.old gains.old moves.old scans.old scratch.old p in
        Followable (edition_number edition) book.files.sizes.now book.recipes.bounds.now book.recipes.pins.now chosen.file before }
    requires gain { chosen.gain ≡ get_or gains.old chosen.file (pos 0) }
    ensures same_moves { SameMoves moves.old moves.new }
    ensures same_scans { SameScans scans.old scans.new }
    ensures board_after { let before = board_of sides.old gains.old moves.old scans.old scratch.old p in
        let own = book.entry in
        board_of sides.new gains.new moves.new scans.new scratch.new result
        ≡ moved_by (edition_number edition) own.files.sizes.now own.recipes.bounds.now own.recipes.pins.now chosen.file before }
{
    let f = chosen.file;
    let q = treat_move(book, sides, gains, scans, scratch, f, p);
    note(moves, p.moves, chosen, q);
    let made = MoveScans::new(book.recipes, scans, p.scans, q.scans);
    let standing = Standing {
        sizes: book.files.sizes,
        sides,
        gains,
    };
    follow_by(edition, scratch, standing, f, made, extent_of(book));
    q.counted()
}

// The pass. The lists lent come one by one: of one struct a list is not read while another of its lists is lent.
fn pass_by(
    edition: Edition,
    job: Job,
    book: Book,
    sides: &mut [u16],
    gains: &mut [i32],
    moves: &mut Moves,
    scans: &mut Scans,
    scratch: &mut [u16],
) -> Result<Passed, Refusal>
    ensures same_moves { SameMoves moves.old moves.new }
    ensures same_scans { SameScans scans.old scans.new }
    ensures ends { let before = lists_of gains.old moves.old scans.old scratch.old in
        ended_of (as_figures result) sides.new (lists_of gains.new moves.new scans.new scratch.new)
        ≡ pass_ends (edition_number edition) the_limits (the_job job book.entry sides.old) before }
{
    two_byte_sizes(book.files.sizes);
    let lists = lengths_of(moves, scans);
    let s = lay_out(
        edition.number(),
        job,
        book,
        sides,
        gains,
        scratch,
        lists,
        false,
    )?;
    let window = window_of(job, s.weight, s.tolerance);
    let extent = extent_of(book);
    enter_by(
        edition,
        scratch,
        book.files.marks,
        Standing {
            sizes: book.files.sizes,
            sides,
            gains,
        },
        extent,
    );
    let mut p = Progress::new(s.size, s.cut);
    // No walk: it ends where the edition chooses none.
    while let Some(chosen) = choose_by(
        edition,
        scratch,
        window,
        p.size as u32,
        Standing {
            sizes: book.files.sizes,
            sides,
            gains,
        },
        extent,
    ) {
        p = make_move(
            edition, book, sides, gains, moves, scans, scratch, chosen, p,
        );
    }
    end_moves(sides, moves, p.best, p.moves, book.files.sizes.len());
    end_scans(scans, scratch, p.scans, edition.number(), extent);
    Ok(p.figures(s.cut, s.unread, s.holding))
}

// One pass by an edition of the choice, lent what document 01 says: the gain list, four move lists, two scan lists and the scratch.
// Choose and move, with an entry for the move in each of the four move lists, until the edition chooses none;
// then the best prefix is kept, and the lists end in zeros.
pub fn pass_once(
    edition: u16,
    job: Job,
    book: Book,
    sides: &mut [u16],
    lent: &mut Lent,
) -> Result<Passed, Refusal>
    ensures same_lists { SameLists lent.old lent.new }
    ensures value { ended_of (as_figures result) sides.new (contents lent.new) ≡ pass_ends edition the_limits (the_job job book.entry sides.old) (contents lent.old) }
{
    let edition = Edition::try_from(edition)?;
    pass_by(
        edition,
        job,
        book,
        sides,
        lent.gains,
        &mut lent.moves,
        &mut lent.scans,
        lent.scratch,
    )
}
