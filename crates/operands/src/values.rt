// Two read values, each with its string beside it: whether a comparator holds of them.
ghost use Rattle.std.specs.Prelude.{◌≡◌, List, ℕ, Float};
ghost use Rattle.slices.specs.Same.{same};
ghost use Rattle.numbers.specs.Comparing.{holds};
ghost use Rattle.views.specs.Meaning.{present};
ghost use Rattle.views.specs.Values.{datum_of};
ghost use Rattle.stored.specs.ReadBack.{comparator_of_kind};
ghost use Rattle.meaning.specs.Values.{ordered, equality, compares as compares_values};

use lookups::bytes::same_bytes;
use lookups::values::Value;
use numbers::comparing::{Comparator, compares};
use table::entries;

// How two numbers are compared, by the comparator of an entry's kind.
fn comparator_of(kind: u8) -> Comparator
    ensures { (x y : Float) → holds result x y ≡ ordered (comparator_of_kind kind) x y }
{
    match kind {
        entries::EQUAL => Comparator::Same,
        entries::NOT_EQUAL => Comparator::Other,
        entries::MORE => Comparator::More,
        entries::AT_LEAST => Comparator::AtLeast,
        entries::LESS => Comparator::Less,
        _ => Comparator::AtMost,
    }
}

// Two strings or two flags, by whether they are the same.
fn equality_holds(kind: u8, same: bool) -> bool
    ensures { result ≡ equality (comparator_of_kind kind) same }
{
    match kind {
        entries::EQUAL => same,
        entries::NOT_EQUAL => !same,
        _ => false,
    }
}

// Whether two strings are the same: their lengths first. Few bytes go by fours, the last ones first, since `==` calls out where the first ones are alike.
pub fn same_string(a: &[u8], b: &[u8]) -> bool
    ensures { result ≡ same a.now b.now }
{
    if a.len() == b.len() && a.len() <= 32 {
        same_bytes(a, b)
    } else {
        a == b
    }
}

// Whether a value is not absent.
pub fn is_present(v: Value) -> bool
    ensures { (x : List ℕ) (l : List (List ℕ)) → result ≡ present (datum_of v x l) }
{
    v.kind >= bags::values::STRING && v.kind <= bags::values::LIST
}

// Whether the comparator of an entry's kind holds of two values, with their strings.
pub fn values_hold(kind: u8, v: Value, x: &[u8], w: Value, y: &[u8]) -> bool
    ensures { (l m : List (List ℕ)) → result ≡ compares_values (comparator_of_kind kind) (datum_of v x.now l) (datum_of w y.now m) }
{
    if v.kind != w.kind {
        return false;
    }
    match v.kind {
        bags::values::STRING => equality_holds(kind, same_string(x, y)),
        bags::values::NUMBER => compares(comparator_of(kind), v.number, w.number),
        bags::values::FLAG => { equality_holds(kind, (v.number == 1.0) == (w.number == 1.0)) }
        _ => false,
    }
}
