// Lists: the literals of a list in the table, and the strings of a list in the bag or question.
ghost use Rattle.std.specs.Prelude.{◌≡◌, List, ℕ, ◌+◌, ◌≤◌, Some};
ghost use Rattle.slices.specs.Same.{same};
ghost use Rattle.bags.specs.Reading.{many, each};
ghost use Rattle.bags.specs.Values.{string_end, list_end};
ghost use Rattle.views.specs.Values.{string_at, list_at, datum_of};
ghost use Rattle.placing.specs.Placed.{Each, LiteralPlaced};
ghost use Rattle.placing.specs.Said.{literal_words};
ghost use Rattle.table.specs.Layout.{entries_in};
ghost use Rattle.stored.specs.ReadBack.{literal_of_entry, literals_at, comparator_of_kind};
ghost use Rattle.meaning.specs.Values.{if_text, literal_value, compares};
ghost use Rattle.meaning.specs.Conditions.{some, among_strings};
ghost use Rattle.operands.specs.Operands.{among_literals, literals_listed};

use crate::values::{same_string, values_hold};
use crate::{Row, quoted};
use lookups::values::Value;
use table::{Entry, entries, entry_in};

// Whether the comparator of an entry's kind holds of the value, with its string, and a literal.
pub fn literal_holds(row: &Row, kind: u8, o: Entry, v: Value, x: &[u8]) -> bool
    requires { LiteralPlaced row.now.text.now (literal_of_entry o) }
    ensures { (l : List (List ℕ)) → result ≡ compares (comparator_of_kind kind) (datum_of v x.now l)
        (literal_value (literal_words row.now.text.now (literal_of_entry o))) }
{
    let w = row.literal_value(o);
    if o.kind == entries::STRING {
        return values_hold(kind, v, x, w, quoted(row.text, o));
    }
    values_hold(kind, v, x, w, x)
}

// Whether one of the `n` literals from entry `at` on is the same as the value, with its string.
pub fn among_literals(row: &Row, n: usize, at: usize, v: Value, x: &[u8]) -> bool
    requires each { Each (LiteralPlaced row.now.text.now) (literals_at n row.now.table.now at) }
    requires n_bound { at + n ≤ entries_in row.now.table.now }
    ensures { (l : List (List ℕ)) → result ≡ among_literals row.now.text.now (datum_of v x.now l)
        (literals_at n row.now.table.now at) }
{
    let table = row.table;
    for k in at..at + n {
        let literal = entry_in(table, k);
        if literal_holds(row, entries::EQUAL, literal, v, x) {
            return true;
        }
    }
    false
}

// Whether x is one of the `n` strings from `at` on.
fn in_strings(s: &[u8], n: usize, at: usize, x: &[u8]) -> bool
    requires { (e : ℕ) × (many n (string_end s.now) at ≡ Some e) }
    ensures { result ≡ some (same x.now) (each n (string_end s.now) (λ at e. string_at s.now at) at) }
{
    let mut next = at;
    for _ in 0..n {
        let start = next + 1;
        let end = start + s[next] as usize;
        if same_string(x, &s[start..end]) {
            return true;
        }
        next = end;
    }
    false
}

// Whether x is a string of the list at `place`.
pub fn in_list(s: &[u8], place: usize, x: &[u8]) -> bool
    requires { (e : ℕ) × (list_end s.now place ≡ Some e) }
    ensures { result ≡ among_strings (list_at s.now place) x.now }
{
    in_strings(s, s[place] as usize, place + 1, x)
}

// Whether a literal is a string of the list at `place`.
fn literal_listed(row: &Row, o: Entry, place: usize) -> bool
    requires literal_placed { LiteralPlaced row.now.text.now (literal_of_entry o) }
    requires by_index { (e : ℕ) × (list_end row.now.s.now place ≡ Some e) }
    ensures { result ≡ if_text (literal_value (literal_words row.now.text.now (literal_of_entry o)))
        (among_strings (list_at row.now.s.now place)) }
{
    if o.kind != entries::STRING {
        return false;
    }
    in_list(row.s, place, quoted(row.text, o))
}

// Whether any, or all, of the `n` literals from entry `at` on are strings of the list at `place`.
pub fn literals_listed(row: &Row, any: bool, n: usize, at: usize, place: usize) -> bool
    requires each { Each (LiteralPlaced row.now.text.now) (literals_at n row.now.table.now at) }
    requires n_bound { at + n ≤ entries_in row.now.table.now }
    requires by_index { (e : ℕ) × (list_end row.now.s.now place ≡ Some e) }
    ensures { result ≡ literals_listed row.now.text.now any (list_at row.now.s.now place)
        (literals_at n row.now.table.now at) }
{
    let table = row.table;
    for k in at..at + n {
        let o = entry_in(table, k);
        if literal_listed(row, o, place) == any {
            return any;
        }
    }
    !any
}
