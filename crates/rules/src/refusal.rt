// Why a call says no: document 01's "Numbers for no" with what document 02 adds. Each variant says its number, when it is given, and its place where that is not 0.
ghost use Rattle.std.specs.Prelude.{◌≡◌};
ghost use Rattle.rules.specs.Numbers.{verdict_of, in_numbers};

use crate::Verdict;

#[derive(Clone, Copy, Debug, PartialEq, Eq)]
pub enum Refusal {
    // 1: C or N is 0.
    Empty,
    // 2: C, N or P is over its most.
    OverMost,
    // 3: sides or marks not C long, or a lent list of wrong length.
    WrongLength,
    // 4: the first bound is not 0, with place 0; then a recipe has fewer than two pins, the lowest; then the last bound is not P, with place N.
    BadBounds { recipe: usize },
    // 5: a pin is C or more, or repeats an earlier pin of its recipe; the lowest position.
    BadPin { position: usize },
    // 6: a size 0, a side over 1 or a mark over 2; the lowest file.
    BadFile { file: usize },
    // 7: num 0, num not below den, or den over its most; then k 0 or over its most.
    BadRatio,
    // 8: no file is free.
    NoneFree,
    // 9: the start is not balanced; of the balancing: no sides of the free files would be.
    Unbalanced,
    // 10: the window would allow a vault of size 0; it stands after 8 and before 9.
    MayEmpty,
    // 20: the stored job is shorter or longer than it must be.
    BadTotal,
    // 21: a block's check is wrong; the block.
    BadCheck { block: usize },
    // 22: a block's head or contents break the layout; the block.
    BadLayout { block: usize },
    // 32: there is no such edition of the choice; before all others.
    NoEdition,
}

// Its number and its place.
impl From<Refusal> for Verdict {
    ghost from_gives = { λ r v. v ≡ verdict_of r };

    fn from(refusal: Refusal) -> Verdict {
        let (number, place) = match refusal {
            Refusal::Empty => (1, 0),
            Refusal::OverMost => (2, 0),
            Refusal::WrongLength => (3, 0),
            Refusal::BadBounds { recipe } => (4, recipe),
            Refusal::BadPin { position } => (5, position),
            Refusal::BadFile { file } => (6, file),
            Refusal::BadRatio => (7, 0),
            Refusal::NoneFree => (8, 0),
            Refusal::Unbalanced => (9, 0),
            Refusal::MayEmpty => (10, 0),
            Refusal::BadTotal => (20, 0),
            Refusal::BadCheck { block } => (21, block),
            Refusal::BadLayout { block } => (22, block),
            Refusal::NoEdition => (32, 0),
        };
        Verdict { number, place }
    }
}

// An answer with the number and the place of its refusal, as a report tells of it.
pub fn numbered<T: Drop>(answer: Result<T, Refusal>) -> Result<T, Verdict>
    ensures { result ≡ in_numbers answer }
{
    match answer {
        Ok(value) => Ok(value),
        Err(refusal) => Err(Verdict::from(refusal)),
    }
}
