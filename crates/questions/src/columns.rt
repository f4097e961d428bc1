// Candidates and columns, read and checked.
ghost use Rattle.std.specs.Prelude.{◌≡◌};
ghost use Rattle.questions.specs.Columns.{candidate_end, candidates_end, head_ok, column_end, columns_end};
ghost use Rattle.questions.specs.Questions.{fourth_end};

use crate::elements::all_differ;
use crate::sizes::{MOST_CANDIDATES, MOST_COLUMNS};
use bags::paths::is_path;
use bags::reading::{Thing, many_end};
use bags::values::{ABSENT, value_end};

// A candidate: a kind byte and a value; an absent one has no value.
pub struct Candidate;

// A column: a root byte, a path length, the path, a count byte, and that many candidates.
pub struct Column;

impl Thing for Candidate {
    ghost ending = { candidate_end };

    fn end(s: &[u8], at: usize) -> Option<usize> {
        match *s.get(at)? {
            ABSENT => Some(at + 1),
            kind => value_end(kind, s, at + 1),
        }
    }
}

// `n` candidates with different bytes.
fn candidates_end(n: usize, s: &[u8], at: usize) -> Option<usize>
    ensures { result ≡ candidates_end n s.now at }
{
    let e = many_end::<Candidate>(n, s, at)?;
    if all_differ::<Candidate>(n, s, at) {
        Some(e)
    } else {
        None
    }
}

// A root byte of 1 to 3, and a count byte of 1 to 8.
fn head_ok(root: u8, count: u8) -> bool
    ensures { result ≡ head_ok root count }
{
    // `&` takes no branch.
    (1 <= root) & (root <= 3) & (1 <= count) & (count as usize <= MOST_CANDIDATES)
}

impl Thing for Column {
    ghost ending = { column_end };

    fn end(s: &[u8], at: usize) -> Option<usize> {
        if s.len() <= at {
            return None;
        }
        if s.len() - at < 2 {
            return None;
        }
        let n = s[at + 1] as usize;
        if s.len() - at - 2 <= n {
            return None;
        }
        let start = at + 2;
        let count_at = start + n;
        let count = s[count_at];
        if head_ok(s[at], count) && is_path(&s[start..count_at]) {
            candidates_end(count as usize, s, count_at + 1)
        } else {
            None
        }
    }
}

// `n` columns with different roots and paths.
fn columns_end(n: usize, s: &[u8], at: usize) -> Option<usize>
    ensures { result ≡ columns_end n s.now at }
{
    let e = many_end::<Column>(n, s, at)?;
    if all_differ::<Column>(n, s, at) {
        Some(e)
    } else {
        None
    }
}

// The section of the columns.
pub fn fourth_end(s: &[u8], at: usize) -> Option<usize>
    ensures { result ≡ fourth_end s.now at }
{
    let n = usize::from(*s.get(at)?);
    if MOST_COLUMNS < n {
        return None;
    }
    columns_end(n, s, at + 1)
}
