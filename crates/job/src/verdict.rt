// Numbers for no: each check by what it looks at, and the chains of them.
#![tactic(auto, using(rules::proofs::Exits::exits), unfolding(rules::specs::Check::check_counts, rules::specs::Check::check_lists, rules::specs::Check::check_bounds, rules::specs::Check::bad_pin, rules::specs::Check::check_pins, rules::specs::Check::check_files, rules::specs::Check::check_lengths, rules::specs::Check::check_contents, rules::specs::Check::check_sound))]

ghost use Rattle.std.specs.Prelude.{◌≡◌, ◌<◌, length, IfOk};
ghost use Rattle.rules.specs.declared.Verdict.{Verdict};
ghost use Rattle.rules.specs.Numbers.{verdict_of};
ghost use Rattle.rules.specs.Cases.{as_verdict};
ghost use Rattle.rules.specs.Check.{refuse_if, ◌or_else◌, bad_k, check_counts, check_lists, check_bounds, check_pins, check_files, check_lengths, check_contents, check_sound};
ghost use Rattle.job.specs.Parts.{of_files, of_recipes, of_lists};
ghost use Rattle.job.specs.Given.{the_limits, the_files, the_recipes, the_pins, the_lists};
ghost use Rattle.job.specs.Refusing.{refused_if, numbers_by};
ghost use Rattle.job.specs.Survey.{verdict_in};

use crate::Job;
use crate::book::{Book, Files, Recipes};
use crate::files::first_bad_file;
use crate::pins::first_bad_pin;
use crate::placed::Placed;
use rules::{Refusal, Verdict};

// What says no by a number and a place.
pub trait Numbered {
    ghost numbers: { Self → Verdict };
}

impl Numbered for Refusal {
    ghost numbers = { verdict_of };
}

// Any number, at any place.
impl Numbered for Verdict {
    ghost numbers = { λ v. v };
}

// Refused, if the test passes; else done.
pub fn refuse_if<R: Numbered + Drop>(test: bool, refusal: R) -> Result<(), R>
    ensures answer { result ≡ refused_if test refusal }
    ensures numbers { numbers_by R.numbers result ≡ refuse_if test (R.numbers refusal).number (R.numbers refusal).place }
{
    if test { Err(refusal) } else { Ok(()) }
}

// The first of two verdicts that refuses.
pub fn or_else(v: Verdict, w: Verdict) -> Verdict
    ensures { result ≡ (v or_else w) }
{
    if v.number != 0 { v } else { w }
}

// 1 and 2, asked of a stored job's header too.
pub fn check_counts(files: usize, recipes: usize, pins: usize) -> Result<(), Refusal>
    ensures { as_verdict result ≡ check_counts the_limits files recipes pins }
{
    refuse_if(files == 0 || recipes == 0, Refusal::Empty)?;
    refuse_if(
        Job::MOST_FILES < files || Job::MOST_RECIPES < recipes || Job::MOST_PINS < pins,
        Refusal::OverMost,
    )
}

// 3.
fn check_lists(files: Files, sides: &[u16], lent: bool) -> Result<(), Refusal>
    ensures { as_verdict result ≡ check_lists (of_files files.entry.sizes.now sides.now files.entry.marks.now) lent }
{
    let c = files.sizes.len();
    refuse_if(
        !(sides.len() == c && files.marks.len() == c && lent),
        Refusal::WrongLength,
    )
}

// 4.
fn check_bounds(recipes: Recipes) -> Result<(), Refusal>
    requires { 1 < length recipes.bounds.now }
    ensures { as_verdict result ≡ check_bounds (of_recipes recipes.entry.bounds.now recipes.entry.pins.now) }
{
    refuse_if(recipes.bounds[0] != 0, Refusal::BadBounds { recipe: 0 })?;
    if let Some(recipe) = recipes.first_short() {
        return Err(Refusal::BadBounds { recipe });
    }
    let n = recipes.count();
    refuse_if(
        recipes.bounds[n] as usize != recipes.pins.len(),
        Refusal::BadBounds { recipe: n },
    )
}

// 5.
fn check_pins(placed: Placed) -> Result<(), Refusal>
    requires { (check_bounds (the_recipes placed.book)).number ≡ 0 }
    ensures { as_verdict result ≡ check_pins (the_pins placed.entry.book) }
{
    match first_bad_pin(placed) {
        Some(position) => Err(Refusal::BadPin { position }),
        None => Ok(()),
    }
}

// 6.
fn check_files(placed: Placed) -> Result<(), Refusal>
    ensures { as_verdict result ≡ check_files (the_files placed.entry.book placed.entry.sides.now) }
{
    match first_bad_file(placed) {
        Some(file) => Err(Refusal::BadFile { file }),
        None => Ok(()),
    }
}

// Whether k is 0 or over its most; the writer and the reader ask it too.
pub fn bad_k(k: u16) -> bool
    ensures { result ≡ bad_k k }
{
    k == 0 || Job::MOST_K < k
}

// 1 to 3, where `lent` says that the lent lists have the right lengths.
fn check_lengths(book: Book, sides: &[u16], lent: bool) -> Result<(), Refusal>
    ensures { as_verdict result ≡ check_lengths the_limits (the_lists book.entry sides.now) lent }
{
    check_counts(
        book.files.sizes.len(),
        book.recipes.count(),
        book.recipes.pins.len(),
    )?;
    check_lists(book.files, sides, lent)
}

// 4 to 6.
fn check_contents(placed: Placed) -> Result<(), Refusal>
    ensures { as_verdict result ≡ check_contents (the_lists placed.entry.book placed.entry.sides.now) }
{
    check_bounds(placed.book.recipes)?;
    check_pins(placed)?;
    check_files(placed)
}

// 1 to 6: the book with its sides.
pub(crate) fn sound<'a>(book: Book<'a>, sides: &'a [u16], lent: bool) -> Result<Placed<'a>, Refusal>
    ensures verdict { verdict_in result ≡ check_sound the_limits (the_lists book.entry sides.now) lent }
    ensures lists { IfOk result (λ p. (p.book ≡ book.entry) × (p.sides ≡ sides.entry)) }
{
    check_lengths(book, sides, lent)?;
    let placed = Placed { book, sides };
    check_contents(placed)?;
    Ok(placed)
}

// 1 to 6.
pub fn check_sound(book: Book, sides: &[u16], lent: bool) -> Result<(), Refusal>
    ensures { as_verdict result ≡ check_sound the_limits (of_lists book.entry.files.sizes.now sides.now book.entry.files.marks.now book.entry.recipes.bounds.now book.entry.recipes.pins.now) lent }
{
    sound(book, sides, lent)?;
    Ok(())
}
