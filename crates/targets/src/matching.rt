// Whether a policy's target matches a request, from the entries of a table.
ghost use Rattle.std.specs.Prelude.{◌≡◌, List, ℕ, ◌+◌, ◌-◌, ◌<◌, ◌≤◌, length};
ghost use Rattle.slices.specs.Same.{same};
ghost use Rattle.grammar.specs.Policies.{span};
ghost use Rattle.placing.specs.Placed.{quoted_at, PrincipalPlaced, ResourcePlaced};
ghost use Rattle.placing.specs.Said.{action_words, part_words, policy_words};
ghost use Rattle.table.specs.Recorded.{lowered};
ghost use Rattle.stored.specs.ReadBack.{part_of_entry, actions_of, policy_at};
ghost use Rattle.stored.specs.Ready.{Last};
ghost use Rattle.meaning.specs.Targets.{type_in, part_matches, action_matches};
ghost use Rattle.meaning.specs.Decisions.{target_matches};
ghost use Rattle.targets.specs.Matching.{request, ActionsAt, TypesOf};

use crate::Types;
use lookups::bytes::same_bytes;
use table::{Entry, entries, entry_in};

// Whether s is what stands between the quotes of the string of the text from `start` up to `end`.
fn is_quoted(text: &[u8], start: usize, end: usize, s: &[u8]) -> bool
    requires { (start + 2 ≤ end) × (end ≤ length text.now) }
    ensures { result ≡ same s.now (quoted_at text.now (span start end)) }
{
    let from = start + 1;
    let to = end - 1;
    if s.len() != to - from {
        return false;
    }
    same_bytes(s, &text[from..to])
}

// Whether the resource part that x says matches s, whose type has this number among the part's types.
fn part_matches(text: &[u8], x: Entry, s: &[u8], type_number: usize) -> bool
    requires { ResourcePlaced text.now (part_of_entry x) }
    ensures { (types : List (List ℕ)) → type_number ≡ type_in types s.now
        → result ≡ part_matches types s.now (part_words text.now (part_of_entry x)) }
{
    match x.kind {
        entries::BARE_PART => true,
        entries::TYPED_PART => type_number == x.first,
        _ => is_quoted(text, x.first, x.second, s),
    }
}

// Whether the principal part that x says, under either version, matches a subject whose type has this number: a bare one always, any other by its type.
fn principal_matches(x: Entry, type_number: usize) -> bool
    requires { PrincipalPlaced (part_of_entry (lowered x)) }
    ensures { (t s : List ℕ) (types : List (List ℕ)) → type_number ≡ type_in types s
        → result ≡ part_matches types s (part_words t (part_of_entry (lowered x))) }
{
    if (x.kind == entries::BARE_PART) | (x.kind == entries::BARE_SECOND) {
        return true;
    }
    type_number == x.first
}

// Whether the action part matches the action, where x is the part's last entry, number end - 1.
fn action_matches(text: &[u8], table: &[u8], end: usize, x: Entry, action: &[u8]) -> bool
    requires { ActionsAt text.now table.now end x }
    ensures { result ≡ action_matches action.now (action_words text.now (actions_of table.now end x)) }
{
    if x.kind == entries::BARE_ACTION {
        return true;
    }
    for e in end - x.first - 1..end - 1 {
        let literal = entry_in(table, e);
        if is_quoted(text, literal.first, literal.second, action) {
            return true;
        }
    }
    false
}

// Whether the target matches of the policy of which x is the last entry, number end - 1.
pub fn target_matches(
    text: &[u8],
    table: &[u8],
    end: usize,
    x: Entry,
    subject: &[u8],
    action: &[u8],
    resource: &[u8],
    types: Types,
) -> bool
    requires last { Last text.now table.now end x }
    requires types_of { TypesOf types subject.now resource.now }
    ensures { result ≡ target_matches (request subject.now action.now resource.now)
        (policy_words text.now (policy_at table.now end x)) }
{
    let principal = entry_in(table, x.first);
    if !principal_matches(principal, types.subject) {
        return false;
    }
    let part = entry_in(table, x.second - 1);
    if !part_matches(text, part, resource, types.resource) {
        return false;
    }
    let actions = entry_in(table, x.second - 2);
    action_matches(text, table, x.second - 1, actions, action)
}
