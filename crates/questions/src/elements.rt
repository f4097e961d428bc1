// Candidates and columns that are known to be whole: the step over one, and whether all are different.
ghost use Rattle.std.specs.Prelude.{◌≡◌, ℕ, List, Some};
ghost use Rattle.bags.specs.Reading.{many, each};
ghost use Rattle.questions.specs.Distinct.{among, distinct};
ghost use Rattle.questions.specs.Columns.{candidate_bytes, column_bytes, NameEnd};

use crate::columns::{Candidate, Column};
use bags::values::ABSENT;
use lookups::steps::{Stepped, many_next, value_next};
use slices::same;

// What may not occur twice: a candidate in its column, a column in the question.
pub trait Unrepeated: Stepped {
    // What tells it from the others, by where it starts and where it ends.
    ghost name: { List ℕ → ℕ → ℕ → List ℕ };

    // Where the bytes end that tell it from the others.
    fn name_end(s: &[u8], at: usize, e: usize) -> usize
        requires { Self.ending s.now at ≡ Some e }
        ensures { NameEnd name s.now at e result };
}

impl Stepped for Candidate {
    fn next(s: &[u8], at: usize) -> usize {
        match s[at] {
            ABSENT => at + 1,
            kind => value_next(kind, s, at + 1),
        }
    }
}

impl Unrepeated for Candidate {
    ghost name = { candidate_bytes };

    #[inline(always)]
    fn name_end(s: &[u8], at: usize, e: usize) -> usize {
        e
    }
}

impl Stepped for Column {
    fn next(s: &[u8], at: usize) -> usize {
        let count_at = at + 2 + s[at + 1] as usize;
        many_next::<Candidate>(s[count_at] as usize, s, count_at + 1)
    }
}

impl Unrepeated for Column {
    ghost name = { column_bytes };

    #[inline(always)]
    fn name_end(s: &[u8], at: usize, e: usize) -> usize {
        at + 2 + s[at + 1] as usize
    }
}

// Whether one of the `n` things from `from` has the name `x`.
fn occurs<T: Unrepeated>(n: usize, s: &[u8], from: usize, x: &[u8]) -> bool
    requires { (e : ℕ) × (many n (T.ending s.now) from ≡ Some e) }
    ensures { result ≡ among x.now (each n (T.ending s.now) (T.name s.now) from) }
{
    let mut next = from;
    for _ in 0..n {
        let e = T::next(s, next);
        let end = T::name_end(s, next, e);
        if same(x, &s[next..end]) {
            return true;
        }
        next = e;
    }
    false
}

// Whether the `n` things from `at` have different names.
pub fn all_differ<T: Unrepeated>(n: usize, s: &[u8], at: usize) -> bool
    requires { (e : ℕ) × (many n (T.ending s.now) at ≡ Some e) }
    ensures { result ≡ distinct (each n (T.ending s.now) (T.name s.now) at) }
{
    let mut next = at;
    for i in 0..n {
        let e = T::next(s, next);
        let end = T::name_end(s, next, e);
        if occurs::<T>(n - i - 1, s, e, &s[next..end]) {
            return false;
        }
        next = e;
    }
    true
}
