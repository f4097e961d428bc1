// Two numbers compared, as the comparators of the rule text say.
ghost use Rattle.std.specs.Prelude.{◌≡◌};
ghost use Rattle.numbers.specs.Comparing.{holds};

// `<`, `<=`, `>`, `>=`, `==` and `!=`.
#[derive(Clone, Copy)]
pub enum Comparator {
    Less,
    AtMost,
    More,
    AtLeast,
    Same,
    Other,
}

// Whether x stands to y as the comparator says.
pub fn compares(c: Comparator, x: f64, y: f64) -> bool
    ensures { result ≡ holds c x y }
{
    match c {
        Comparator::Less => x < y,
        Comparator::AtMost => x <= y,
        Comparator::More => x > y,
        Comparator::AtLeast => x >= y,
        Comparator::Same => x == y,
        Comparator::Other => x != y,
    }
}
