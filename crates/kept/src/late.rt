// Which policies are met again where a column changes, and which permit, found once: in marks.
ghost use Rattle.std.specs.Prelude.{◌≡◌, ℕ, ◌≤◌, ◌<◌, length, get_or};
ghost use Rattle.tokens.specs.Sizes.{most_policies};
ghost use Rattle.stored.specs.ReadBack.{policies_at};
ghost use Rattle.questions.specs.Sizes.{most_columns};
ghost use Rattle.marks.specs.Marks.{permits_of};
ghost use Rattle.kept.specs.Notes.{Late, ReadyOfSome};

use depths::{LOOKS, wide};
use marks::mark_with;
use questions::sizes::MOST_COLUMNS;
use table::{entries, entry_at};
use tokens::sizes::MOST_POLICIES;

// The mark of the policies to which this column or a later one can matter.
fn late(looks: &[u8; LOOKS], policies: usize, column: usize) -> u64
    requires { policies ≤ most_policies }
    ensures { Late looks.now policies column result }
{
    let mut mark = 0;
    let mut i = policies;
    while 0 < i {
        i -= 1;
        let own = wide(looks[i]);
        let other = wide(looks[MOST_POLICIES + i]);
        let matters = (column <= own) | (column < other);
        mark = mark_with(matters, mark);
    }
    mark
}

// The same for each column.
pub fn lates(looks: &[u8; LOOKS], policies: usize) -> [u64; MOST_COLUMNS]
    requires { policies ≤ most_policies }
    ensures { (column : ℕ) → column < most_columns → Late looks.now policies column (get_or result column 0) }
{
    let mut found = [0u64; MOST_COLUMNS];
    let mut column = 0;
    while column < MOST_COLUMNS {
        let mark = late(looks, policies, column);
        found[column] = mark;
        column += 1;
    }
    found
}

// The mark of the permits, of the policies whose entries end before number `entries`.
pub fn effects(table: &[u8], entries: usize) -> u64
    requires ready_of_some { ReadyOfSome table.now entries }
    requires entries_len_bound { length (policies_at table.now entries) ≤ most_policies }
    ensures { result ≡ permits_of (policies_at table.now entries) }
{
    let mut end = entries;
    let mut mark = 0;
    while 0 < end {
        let x = entry_at(table, end - 1);
        let allows = x.kind == entries::PERMIT;
        mark = mark_with(allows, mark);
        end = x.first;
    }
    mark
}
