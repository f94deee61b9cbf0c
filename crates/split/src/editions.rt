// The editions of the choice.
ghost use Rattle.std.specs.Prelude.{◌≡◌};
ghost use Rattle.split.specs.Editions.{edition_number, EditionOf};

use rules::Refusal;

#[derive(Clone, Copy)]
pub(crate) enum Edition {
    One = 1,
    Two = 2,
}

impl Edition {
    pub fn number(self) -> u16
        ensures { result ≡ edition_number self }
    {
        self as u16
    }
}

impl TryFrom<u16> for Edition {
    type Error = Refusal;

    ghost try_from_gives = { EditionOf };

    #[tactic(auto, unfolding(rules::specs::Check::check_edition))]
    fn try_from(number: u16) -> Result<Self, Refusal> {
        match number {
            1 => Ok(Edition::One),
            2 => Ok(Edition::Two),
            _ => Err(Refusal::NoEdition),
        }
    }
}
