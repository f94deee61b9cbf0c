// Binding numbers, by the counts that are kept: a recipe's files on one side, and those of them that are locked.
ghost use Rattle.std.specs.Prelude.{◌≡◌, ◌*◌, ◌≤◌, ◌<◌, length};
ghost use Rattle.rules.specs.Levels.{is_number, above_zero, binding_of, adds, takes};
ghost use Rattle.levels.specs.Numbers.{as_binding, number_in};

// A count of free files, or unlimited where a file is locked.
#[derive(Clone, Copy)]
pub(crate) enum BindingNumber {
    Counted(u16),
    Unlimited,
}

impl BindingNumber {
    fn new(on: u16, locked: u16) -> Self
        ensures { as_binding result ≡ binding_of on locked }
    {
        match locked {
            0 => BindingNumber::Counted(on),
            _ => BindingNumber::Unlimited,
        }
    }

    // Whether it is i; unlimited is no number.
    fn is(self, i: u16) -> bool
        ensures { result ≡ is_number i (as_binding self) }
    {
        match self {
            BindingNumber::Counted(n) => n == i,
            BindingNumber::Unlimited => false,
        }
    }

    fn is_above_zero(self) -> bool
        ensures { result ≡ above_zero (as_binding self) }
    {
        match self {
            BindingNumber::Counted(n) => 0 < n,
            BindingNumber::Unlimited => true,
        }
    }

    // Whether a recipe of this number on a file's own side adds to level i.
    pub(crate) fn adds(self, other: BindingNumber, i: u16) -> bool
        ensures { result ≡ adds i (as_binding self) (as_binding other) }
    {
        self.is(i) && other.is_above_zero()
    }

    // Whether it takes from level i.
    pub(crate) fn takes(self, other: BindingNumber, i: u16) -> bool
        requires { 0 < i }
        ensures { result ≡ takes i (as_binding self) (as_binding other) }
    {
        self.is_above_zero() && other.is(i - 1)
    }
}

// Recipe j's number for a side, by its n counts and 2n further those of locked files; 0, which no level counts, where there is no such recipe.
pub(crate) fn number_at(counts: &[u16], n: usize, j: usize) -> BindingNumber
    requires { 3 * n ≤ length counts.now }
    ensures { as_binding result ≡ number_in counts.now n j }
{
    if j < n {
        BindingNumber::new(counts[j], counts[2 * n + j])
    } else {
        BindingNumber::Counted(0)
    }
}
