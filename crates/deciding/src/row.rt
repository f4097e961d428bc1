// What the policies of a table decide over a bag, with their mark, and whether a policy's condition holds in a row of attributes: the bytes s with their
// places, and what is chosen for the columns at `values`.
ghost use Rattle.std.specs.Prelude.{◌≡◌, ◌≤◌, length};
ghost use Rattle.tokens.specs.Sizes.{most_policies};
ghost use Rattle.bags.specs.Sections.{Sectioned};
ghost use Rattle.table.specs.Recorded.{recorded};
ghost use Rattle.stored.specs.ReadBack.{policy_at, policies_at};
ghost use Rattle.stored.specs.Ready.{ReadyPolicies, Last};
ghost use Rattle.views.specs.Meaning.{look};
ghost use Rattle.views.specs.Values.{base_bag};
ghost use Rattle.bags.specs.Sizes.{most_bag_bytes};
ghost use Rattle.views.specs.Places.{placed_view};
ghost use Rattle.placing.specs.Said.{policy_words, words_of};
ghost use Rattle.meaning.specs.Values.{with_action};
ghost use Rattle.meaning.specs.Decisions.{under, condition_holds, satisfied, policies_marked};
ghost use Rattle.targets.specs.Matching.{request, TypesOf};

use bags::sections::Sections;
use evaluating::evaluate;
use marks::{by_marks, mark_with};
use meaning::{Marked, Verdict};
use operands::Row;
use questions::sizes::MOST_COLUMNS;
use slots::index_of;
use table::{Entry, entries, entry_at};
use targets::Types;
use targets::matching::target_matches;

// Whether the condition, if any, is true in the row of the policy of which x is the last entry, number end - 1.
pub fn condition_holds(row: &Row, end: usize, x: Entry) -> bool
    requires { Last row.now.text.now row.now.table.now end x }
    ensures { result ≡ condition_holds
        (under (recorded row.now.table.now)
        (with_action row.now.action.now (placed_view row.now.s.now row.now.places.now row.now.values.now)))
        (policy_words row.now.text.now (policy_at row.now.table.now end x)).condition }
{
    // a condition would begin before the policy's own entry
    if x.second == end - 1 {
        return true;
    }
    let v = evaluate(row, end - 1);
    matches!(v, Verdict::Yes)
}

// Whether the policy of which x is the last entry, number end - 1, is satisfied in the row: its target is met first, then its condition.
fn is_satisfied(
    row: &Row,
    end: usize,
    x: Entry,
    subject: &[u8],
    resource: &[u8],
    types: Types,
) -> bool
    requires last { Last row.now.text.now row.now.table.now end x }
    requires types_of { TypesOf types subject.now resource.now }
    ensures { result ≡ satisfied
        (under (recorded row.now.table.now) (placed_view row.now.s.now row.now.places.now row.now.values.now))
        (request subject.now row.now.action.now resource.now)
        (policy_words row.now.text.now (policy_at row.now.table.now end x)) }
{
    if !target_matches(
        row.text, row.table, end, x, subject, row.action, resource, types,
    ) {
        return false;
    }
    condition_holds(row, end, x)
}

// What the policies decide whose entries end before number `entries`, over the bag, with their mark. They are met from the last to the first; those left end
// before number `end`. Each is met, for the mark has them all.
pub fn decision(
    text: &[u8],
    table: &[u8],
    entries: usize,
    bag: &[u8],
    p: Sections,
    subject: &[u8],
    action: &[u8],
    resource: &[u8],
    types: Types,
) -> Marked
    requires ready_policies { ReadyPolicies text.now table.now entries }
    requires entries_len_bound { length (policies_at table.now entries) ≤ most_policies }
    requires sectioned { Sectioned bag.now p × (length bag.now ≤ most_bag_bytes) }
    requires types_of { TypesOf types subject.now resource.now }
    ensures { result ≡ policies_marked (under (recorded table.now) (look (base_bag bag.now p)))
        (request subject.now action.now resource.now)
        (words_of text.now (policies_at table.now entries)) }
{
    // a bag is a row without columns
    let none = [0usize; MOST_COLUMNS];
    let places = index_of(bag, p);
    let row = Row {
        text,
        table,
        s: bag,
        places: &places,
        values: &none,
        action,
    };
    let mut end = entries;
    let mut permits = 0;
    let mut mark = 0;
    while 0 < end {
        let x = entry_at(table, end - 1);
        let hit = is_satisfied(&row, end, x, subject, resource, types);
        let allows = x.kind == entries::PERMIT;
        permits = mark_with(allows, permits);
        mark = mark_with(hit, mark);
        end = x.first;
    }
    let d = by_marks(mark, permits);
    Marked { d, mark }
}
