// Steps over what is known to be whole: nothing is checked a second time.
ghost use Rattle.std.specs.Prelude.{◌≡◌, ℕ, Some};
ghost use Rattle.bags.specs.Reading.{many};
ghost use Rattle.bags.specs.Values.{value_end};

use bags::reading::Thing;
use bags::values::{FLAG, NUMBER, STRING, Text};

// A thing whose end is found by a step where it is known to be whole.
pub trait Stepped: Thing {
    fn next(s: &[u8], at: usize) -> usize
        requires { (e : ℕ) × (Self.ending s.now at ≡ Some e) }
        ensures { Self.ending s.now at ≡ Some result };
}

impl Stepped for Text {
    #[inline(always)]
    fn next(s: &[u8], at: usize) -> usize {
        at + 1 + s[at] as usize
    }
}

// Where `n` things end: they are passed two at a time, which takes fewer instructions.
pub fn many_next<T: Stepped>(n: usize, s: &[u8], at: usize) -> usize
    requires { (e : ℕ) × (many n (T.ending s.now) at ≡ Some e) }
    ensures { many n (T.ending s.now) at ≡ Some result }
{
    let mut next = at;
    for _ in 0..n / 2 {
        let second = T::next(s, next);
        next = T::next(s, second);
    }
    if n % 2 == 1 {
        return T::next(s, next);
    }
    next
}

// Where a value ends.
pub fn value_next(kind: u8, s: &[u8], at: usize) -> usize
    requires { (e : ℕ) × (value_end kind s.now at ≡ Some e) }
    ensures { value_end kind s.now at ≡ Some result }
{
    match kind {
        STRING => Text::next(s, at),
        NUMBER => at + 8,
        FLAG => at + 1,
        _ => many_next::<Text>(s[at] as usize, s, at + 1),
    }
}
