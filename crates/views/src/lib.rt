// A row's view of attributes: its columns first, then the base. A bag is a row without columns.
#![tactic(auto)]

ghost use Rattle.std.specs.Prelude.{◌≡◌, cond, ◌&&◌, [], ℕ, ◌≤◌, ◌<◌, eqb, ltb, length, get_or};
ghost use Rattle.slices.specs.Same.{same};
ghost use Rattle.bags.specs.Reading.{byte};
ghost use Rattle.bags.specs.Sizes.{most_bag_bytes};
ghost use Rattle.tokens.specs.Blanks.{unblanked};
ghost use Rattle.questions.specs.Columns.{column_path, count_at};
ghost use Rattle.questions.specs.Sizes.{most_columns, most_candidates};
ghost use Rattle.lookups.specs.Values.{ShownAt};
ghost use Rattle.views.specs.Places.{kept_heads, placed_value, RowAt, WithColumns};

use lookups::finding::same_path;
use questions::sizes::{MOST_CANDIDATES, MOST_COLUMNS};
use slots::{KEPT, place_in};

// Where the number of columns is kept among the places; the columns' own follow.
const COLUMNS: usize = 195;

// Whether the column at `head` names this attribute.
pub fn names(s: &[u8], head: usize, root: u8, path: &[u8]) -> bool
    requires { count_at s.now head < length s.now }
    ensures { result ≡ (eqb (byte s.now head) root && same (column_path s.now head) (unblanked path.now)) }
{
    if s[head] == root {
        same_path(s, head + 2, s[head + 1] as usize, path)
    } else {
        false
    }
}

// The place of column number `i`, from 0 on.
fn head_of(places: &[u16; KEPT], i: usize) -> usize
    requires { i < most_columns }
    ensures { result ≡ get_or (kept_heads places.now) i 0 }
{
    places[COLUMNS + 1 + i] as usize
}

// The places of a row: those of its base, and of its `n` columns.
pub fn with_columns(base: [u16; KEPT], n: usize, heads: &[usize; MOST_COLUMNS]) -> [u16; KEPT]
    requires n_le_most_columns { n ≤ most_columns }
    requires by_index { (i : ℕ) → i < most_columns → get_or heads.now i 0 ≤ most_bag_bytes }
    ensures { WithColumns base n heads.now result }
{
    let mut places = base;
    places[COLUMNS] = n as u16;
    for i in 0..MOST_COLUMNS {
        places[COLUMNS + 1 + i] = heads[i] as u16;
    }
    places
}

// Where the attribute in the row of these places stands, with the chosen candidates at `values`: the place of its kind byte, or the end of the bytes where
// it is absent. The path is that of the rule text, blanks and all.
pub fn attribute(
    s: &[u8],
    places: &[u16; KEPT],
    values: &[usize; MOST_COLUMNS],
    root: u8,
    path: &[u8],
) -> usize
    requires { RowAt s.now places.now values.now }
    ensures { ShownAt s.now result
        (placed_value s.now places.now values.now root (unblanked path.now)) }
{
    let n = places[COLUMNS] as usize;
    for i in 0..n {
        let head = head_of(places, i);
        if names(s, head, root, path) {
            return values[i];
        }
    }
    place_in(s, places, root, path)
}

// The places of the chosen candidates, from those of all, by column and choice.
pub fn chosen(
    grid: [[usize; MOST_CANDIDATES]; MOST_COLUMNS],
    n: usize,
    choices: &[u8; MOST_COLUMNS],
) -> [usize; MOST_COLUMNS]
    requires n_le_most_columns { n ≤ most_columns }
    requires by_index { (i : ℕ) → i < n → get_or choices.now i 0 < most_candidates }
    ensures { (i : ℕ) → i < most_columns → get_or result i 0 ≡ cond (ltb i n) (get_or (get_or grid i []) (get_or choices.now i 0) 0) 0 }
{
    let mut values = [0usize; MOST_COLUMNS];
    for i in 0..n {
        let choice = choices[i] as usize;
        values[i] = grid[i][choice];
    }
    values
}
