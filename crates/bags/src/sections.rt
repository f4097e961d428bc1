// Entries, sections, and the three sections of a bag.
ghost use Rattle.std.specs.Prelude.{◌≡◌, cond, None};
ghost use Rattle.bags.specs.Sections.{entry_end, entries_end, section_end, sections_of, is_bag};

use crate::paths::is_path;
use crate::sizes::{MOST_BAG_BYTES, MOST_ENTRIES};
use crate::values::value_end;
use slices::before;

// Where the sections resource and env start, and where env ends. The section principal starts at 0.
#[derive(Clone, Copy)]
pub struct Sections {
    pub resource: usize,
    pub env: usize,
    pub end: usize,
}

fn entry_end(s: &[u8], at: usize) -> Option<usize>
    ensures { result ≡ entry_end s.now at }
{
    let n = usize::from(*s.get(at)?);
    let start = at + 1;
    let kind_at = start + n;
    let kind = *s.get(kind_at)?;
    if is_path(&s[start..kind_at]) {
        value_end(kind, s, kind_at + 1)
    } else {
        None
    }
}

// `n` entries whose paths ascend.
fn entries_end(n: usize, s: &[u8], at: usize) -> Option<usize>
    ensures { result ≡ entries_end n s.now at }
{
    let mut next = at;
    let mut last = &s[..0];
    for _ in 0..n {
        let e = entry_end(s, next)?;
        let start = next + 1;
        let end = start + usize::from(s[next]);
        let path = &s[start..end];
        if !before(last, path) {
            return None;
        }
        last = path;
        next = e;
    }
    Some(next)
}

pub fn section_end(s: &[u8], at: usize) -> Option<usize>
    ensures { result ≡ section_end s.now at }
{
    let n = usize::from(*s.get(at)?);
    if MOST_ENTRIES < n {
        return None;
    }
    entries_end(n, s, at + 1)
}

// The three sections that `s` begins with.
pub fn sections_of(s: &[u8]) -> Option<Sections>
    ensures { result ≡ sections_of s.now }
{
    let resource = section_end(s, 0)?;
    let env = section_end(s, resource)?;
    let end = section_end(s, env)?;
    Some(Sections { resource, env, end })
}

// The sections of a bag, or None where `s` is none.
pub fn bag_sections(s: &[u8]) -> Option<Sections>
    ensures { result ≡ cond (is_bag s.now) (sections_of s.now) None }
{
    if MOST_BAG_BYTES < s.len() {
        return None;
    }
    let p = sections_of(s)?;
    if p.end == s.len() { Some(p) } else { None }
}
