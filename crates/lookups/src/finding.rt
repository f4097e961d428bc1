// The entry with a path, among those of a section.
ghost use Rattle.std.specs.Prelude.{◌≡◌, true, ℕ, ◌+◌, ◌<◌, ◌≤◌, length, Some};
ghost use Rattle.slices.specs.Same.{same};
ghost use Rattle.tokens.specs.Runs.{is_of};
ghost use Rattle.tokens.specs.declared.classes.Sort.TheVariants.{Blanks};
ghost use Rattle.slices.specs.Parts.{part};
ghost use Rattle.bags.specs.Reading.{byte, many, each};
ghost use Rattle.bags.specs.Paths.{is_path};
ghost use Rattle.bags.specs.Sections.{entry_end, section_end, Sectioned};
ghost use Rattle.tokens.specs.Blanks.{unblanked};
ghost use Rattle.lookups.specs.Values.{absent, ShownAt};
ghost use Rattle.lookups.specs.Lookups.{look_in, bag_entry_at, section_at, base_of};

use crate::bytes::same_bytes;
use crate::steps::value_next;
use crate::values::{Value, value_at};
use bags::sections::Sections;

fn is_blank(c: u8) -> bool
    ensures { result ≡ is_of Blanks c }
{
    // `|` takes no branch.
    (c == b' ') | (c == b'\t') | (c == b'\n') | (c == b'\r')
}

// Whether the `n` bytes of `s` from `at` are those of `path` but its blanks.
pub fn same_path(s: &[u8], at: usize, n: usize, path: &[u8]) -> bool
    requires { at + n ≤ length s.now }
    ensures { result ≡ same (part s.now at n) (unblanked path.now) }
{
    let end = at + n;
    let mut rest = &s[at..end];
    for c in path {
        if is_blank(*c) {
            continue;
        }
        match rest.split_first() {
            Some((first, tail)) if first == c => rest = tail,
            _ => return false,
        }
    }
    rest.is_empty()
}

// The first byte of a path but its blanks; 0 where it has none.
fn lead_of(path: &[u8]) -> u8
    ensures { result ≡ byte (unblanked path.now) 0 }
{
    for c in path {
        if !is_blank(*c) {
            return *c;
        }
    }
    0
}

// Whether an entry's path, the `n` bytes of `s` from `at`, is `path` but its blanks. Most entries' paths have another first byte than `lead`; one without blanks is as long.
fn is_named(s: &[u8], at: usize, n: usize, lead: u8, path: &[u8]) -> bool
    requires n_in_bounds { at + n ≤ length s.now }
    requires n_value { is_path (part s.now at n) ≡ true }
    requires lead_value { lead ≡ byte (unblanked path.now) 0 }
    ensures { result ≡ same (part s.now at n) (unblanked path.now) }
{
    if s[at] != lead {
        return false;
    }
    if n == path.len() {
        let end = at + n;
        same_bytes(&s[at..end], path)
    } else {
        same_path(s, at, n, path)
    }
}

// Among the `n` entries from `at`, the place of the kind byte of the one with this path; the end of the bytes, where nothing stands, for none.
fn find_in(n: usize, path: &[u8], s: &[u8], at: usize) -> usize
    requires { (e : ℕ) × (many n (entry_end s.now) at ≡ Some e) }
    ensures { ShownAt s.now result
        (look_in absent (each n (entry_end s.now) (bag_entry_at s.now) at) (unblanked path.now)) }
{
    let lead = lead_of(path);
    let mut next = at;
    for _ in 0..n {
        let size = s[next] as usize;
        let start = next + 1;
        let kind_at = start + size;
        if is_named(s, start, size, lead, path) {
            return kind_at;
        }
        next = value_next(s[kind_at], s, kind_at + 1);
    }
    s.len()
}

// The place of the attribute in the section whose count byte stands at `b`.
fn section_place(s: &[u8], b: usize, path: &[u8]) -> usize
    requires { (e : ℕ) × (section_end s.now b ≡ Some e) }
    ensures { ShownAt s.now result (look_in absent (section_at s.now b) (unblanked path.now)) }
{
    find_in(s[b] as usize, path, s, b + 1)
}

// The place of the attribute in the section of a root byte: that of its kind byte, or the end of the bytes where it is absent.
pub fn base_place(s: &[u8], p: Sections, root: u8, path: &[u8]) -> usize
    requires { Sectioned s.now p }
    ensures { ShownAt s.now result (look_in absent (base_of s.now p root) (unblanked path.now)) }
{
    match root {
        1 => section_place(s, 0, path),
        2 => section_place(s, p.resource, path),
        3 => section_place(s, p.env, path),
        _ => s.len(),
    }
}

// The attribute in the section of a root byte.
pub fn base_value(s: &[u8], p: Sections, root: u8, path: &[u8]) -> Value
    requires { Sectioned s.now p }
    ensures { result ≡ look_in absent (base_of s.now p root) (unblanked path.now) }
{
    let k = base_place(s, p, root, path);
    value_at(s, k)
}
