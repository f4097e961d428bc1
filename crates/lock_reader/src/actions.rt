// The action list: strings one after the other, each behind its length byte.
ghost use Rattle.std.specs.Prelude.{◌≡◌};
ghost use Rattle.permits.specs.Permits.{quoted};
ghost use Rattle.locks.specs.Reading.{is_rule_string, action_at, ActionIs, actions_read, between_actions, size_with, SizeIs};

use locks::Piece;
use tokens::classes::Sort;
use tokens::runs::run_end;
use utf8::is_utf8;

// The most actions of a list.
pub const ACTIONS: usize = 16;

// Whether bytes are a string of document 01, which is UTF-8.
pub fn is_string(s: &[u8]) -> bool
    ensures { result ≡ is_rule_string s.now }
{
    // Tried with `&&`: where the run was not asked for, `returns-else-run_end-s` has no end of it to compare.
    (s.len() <= 127) & (run_end(s, 0, Sort::StringBytes) == s.len()) & is_utf8(s)
}

// The string behind the length byte at a place.
pub fn action_at(actions: &[u8], at: usize) -> Option<Piece>
    ensures { ActionIs actions.now result (action_at actions.now at) }
{
    if actions.len() <= at {
        return None;
    }
    let start = at + 1;
    let n = actions[at] as usize;
    if actions.len() - start < n {
        return None;
    }
    let end = start + n;
    if is_string(&actions[start..end]) {
        Some(Piece { start, end })
    } else {
        None
    }
}

// How many bytes the list has in a permit: each string with its quotes, and two bytes between two.
pub fn actions_size(actions: &[u8]) -> Option<usize>
    ensures { SizeIs result (size_with 0 between_actions quoted (actions_read actions.now)) 2096 }
{
    let mut at = 0;
    let mut size = 0;
    for _ in 0..ACTIONS {
        let p = action_at(actions, at)?;
        let sum = size + (p.end - p.start) + 2;
        if p.end == actions.len() {
            return Some(sum);
        }
        at = p.end;
        size = sum + 2;
    }
    None
}
