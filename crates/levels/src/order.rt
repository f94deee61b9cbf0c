// Two gain vectors, compared place by place from level 1 on.
ghost use Rattle.std.specs.Prelude.{◌≡◌};
ghost use Rattle.rules.specs.Levels.{greater_vector};

// An array's order is that of its first place that differs.
pub(crate) fn is_greater(a: [i32; 3], b: [i32; 3]) -> bool
    ensures { result ≡ greater_vector a b }
{
    a > b
}
