// What can matter to a policy in the rows of a question, found once: which columns its condition names, and whether its target matches.
#![tactic(auto)]

ghost use Rattle.std.specs.Prelude.{◌≡◌, cond, ◌+◌, ◌-◌, ◌*◌, ◌/◌, ◌%◌, ◌≤◌, ◌<◌, length};
ghost use Rattle.tokens.specs.Blanks.{unblanked};
ghost use Rattle.tokens.specs.Sizes.{most_policies};
ghost use Rattle.table.specs.Layout.{field_numbers};
ghost use Rattle.stored.specs.ReadBack.{policies_at};
ghost use Rattle.stored.specs.Ready.{ReadyPolicies};
ghost use Rattle.pages.specs.Rows.{Counted};
ghost use Rattle.depths.specs.Columns.{naming, root_by, column_of, deeper, depth_from};
ghost use Rattle.targets.specs.Matching.{request, TypesOf};
ghost use Rattle.depths.specs.Looks.{Depths, Aims, Ends, end_at};

use questions::sizes::MOST_COLUMNS;
use table::{Entry, entries, entry_at};
use targets::Types;
use targets::matching::target_matches;
use tokens::sizes::MOST_POLICIES;
use views::names;

// The root byte of an entry's kind: attributes have kinds 1 to 4, those of `has` 5 to 8.
fn root_by(kind: u8) -> u8
    ensures { result ≡ root_by kind }
{
    if kind <= entries::ACTION {
        kind
    } else {
        kind - entries::ROOTS
    }
}

// The first of `n` columns that names this attribute, from 1 on; 0 where none does.
fn column_naming(s: &[u8], n: usize, heads: &[usize; MOST_COLUMNS], root: u8, path: &[u8]) -> u8
    requires { Counted s.now n heads.now }
    ensures { result ≡ naming n s.now heads.now 0 root (unblanked path.now) }
{
    for i in 0..n {
        if names(s, heads[i], root, path) {
            return (i + 1) as u8;
        }
    }
    0
}

// The column that an entry names: only entries of a kind up to 8 have a path.
fn column_of(text: &[u8], x: Entry, s: &[u8], n: usize, heads: &[usize; MOST_COLUMNS]) -> u8
    requires { Counted s.now n heads.now }
    ensures { result ≡ column_of text.now s.now n heads.now x }
{
    let start = x.first;
    let end = x.second;
    if (x.kind <= entries::HAS_ACTION) & (start <= end) & (end <= text.len()) {
        let root = root_by(x.kind);
        return column_naming(s, n, heads, root, &text[start..end]);
    }
    0
}

// The larger of two columns, where the second is not the column `but`.
fn deeper_of(but: u8, a: u8, k: u8) -> u8
    ensures { result ≡ deeper but a k }
{
    if a < k && k != but { k } else { a }
}

// The last column, `but` aside, that the entries from number `first` up to `end` name.
fn depth(
    text: &[u8],
    table: &[u8],
    first: usize,
    end: usize,
    s: &[u8],
    n: usize,
    heads: &[usize; MOST_COLUMNS],
    but: u8,
) -> u8
    requires counted { Counted s.now n heads.now }
    requires first_le_end { first ≤ end }
    requires end_lt_field_numbers { end < field_numbers }
    ensures { result ≡ depth_from (end - first) text.now table.now s.now n heads.now but first 0 }
{
    let mut deepest = 0;
    for at in first..end {
        let x = entry_at(table, at);
        let k = column_of(text, x, s, n, heads);
        deepest = deeper_of(but, deepest, k);
    }
    deepest
}

// A column that is counted from 1 on, from 0 on; 0 also where there is none.
fn from_zero(column: u8) -> u8
    ensures { result ≡ column - 1 }
{
    column.saturating_sub(1)
}

// 1 for yes, 0 for no.
fn one_if(b: bool) -> u8
    ensures { result ≡ cond b 1 0 }
{
    u8::from(b)
}

// A byte as a number that indexes.
pub fn wide(byte: u8) -> usize
    ensures { result ≡ byte }
{
    byte as usize
}

// Where the third part of what is found of each policy begins: whether its target matches.
pub const AIMS: usize = 2 * MOST_POLICIES;

// Where the fourth part and the fifth begin: the low and the high byte of the number before which its entries end.
const LOWS: usize = 3 * MOST_POLICIES;

const HIGHS: usize = 4 * MOST_POLICIES;

// How much is found.
pub const LOOKS: usize = 5 * MOST_POLICIES;

// The low byte of a number of two bytes, and the high one.
fn low_of(number: usize) -> u8
    requires { number < field_numbers }
    ensures { result ≡ number % 256 }
{
    (number % 256) as u8
}

fn high_of(number: usize) -> u8
    requires { number < field_numbers }
    ensures { result ≡ number / 256 }
{
    (number / 256) as u8
}

// Two bytes as a number, the low byte first.
fn joined(low: u8, high: u8) -> usize
    ensures { result ≡ low + 256 * high }
{
    low as usize + 256 * (high as usize)
}

// What each policy looks at, in five parts of 64 bytes: the last column that its condition names, its own, from 0 on; the last but that, from 1 on;
// whether its target matches the request; and two bytes that say where its entries end.
pub fn looks(
    text: &[u8],
    table: &[u8],
    policies: usize,
    entries: usize,
    s: &[u8],
    n: usize,
    heads: &[usize; MOST_COLUMNS],
    subject: &[u8],
    action: &[u8],
    resource: &[u8],
    types: Types,
) -> [u8; LOOKS]
    requires ready_policies { ReadyPolicies text.now table.now entries }
    requires policies_value { policies ≡ length (policies_at table.now entries) }
    requires policies_le_most_policies { policies ≤ most_policies }
    requires counted { Counted s.now n heads.now }
    requires types_of { 0 < entries → TypesOf types subject.now resource.now }
    ensures depths { Depths text.now s.now n heads.now (policies_at table.now entries) result }
    ensures aims { Aims text.now (request subject.now action.now resource.now)
        (policies_at table.now entries) result }
    ensures ends { Ends text.now table.now (policies_at table.now entries) result }
{
    let mut found = [0u8; LOOKS];
    let mut end = entries;
    let mut number = policies;
    while 0 < end {
        let x = entry_at(table, end - 1);
        let i = number - 1;
        let first = x.second;
        let own = depth(text, table, first, end - 1, s, n, heads, 0);
        let other = depth(text, table, first, end - 1, s, n, heads, own);
        let aimed = target_matches(text, table, end, x, subject, action, resource, types);
        found[i] = from_zero(own);
        found[MOST_POLICIES + i] = other;
        found[AIMS + i] = one_if(aimed);
        found[LOWS + i] = low_of(end);
        found[HIGHS + i] = high_of(end);
        end = x.first;
        number = i;
    }
    found
}

// Where the entries of policy i end, from 0 on.
pub fn end_of(looks: &[u8; LOOKS], i: usize) -> usize
    requires { i < most_policies }
    ensures { result ≡ end_at looks.now i }
{
    joined(looks[LOWS + i], looks[HIGHS + i])
}
