// Which edition of the choice the arguments of a program name.
ghost use Rattle.std.specs.Prelude.{◌≡◌, ◌≢◌, IfSome};
ghost use Rattle.teller.specs.Arguments.{edition_in, edition_named, as_edition};

// The edition that these bytes are the text of.
fn edition_in(word: &[u8]) -> Option<u16>
    ensures named { as_edition result ≡ edition_in word.now }
    ensures some { IfSome result (λ edition. edition ≢ 0) }
{
    if word.len() != 1 {
        return None;
    }
    let digit = word[0];
    if digit == b'1' {
        return Some(1);
    }
    if digit == b'2' {
        return Some(2);
    }
    None
}

// That of a program's one argument, `word`; without any the one that goes unsaid, of which 0 is none. `count` is how many the program was started with, its own name among
// them.
pub fn edition_named(count: usize, word: &[u8], unsaid: u16) -> Option<u16>
    ensures named { as_edition result ≡ edition_named count word.now unsaid }
    ensures some { IfSome result (λ edition. edition ≢ 0) }
{
    if count < 2 {
        return (unsaid != 0).then_some(unsaid);
    }
    if 2 < count {
        return None;
    }
    edition_in(word)
}
