// The places of a bag's entries, found once and kept: an attribute is found by its path without going through its section.
#![tactic(auto)]

ghost use Rattle.std.specs.Prelude.{◌≡◌, true, ℕ, ◌+◌, ◌*◌, ◌%◌, ◌<◌, ◌≤◌, length, get_or, Some};
ghost use Rattle.slices.specs.Same.{same};
ghost use Rattle.bags.specs.Sections.{path_at, kind_at, entry_end, section_end, Sectioned};
ghost use Rattle.bags.specs.Sizes.{most_bag_bytes};
ghost use Rattle.tokens.specs.Blanks.{unblanked};
ghost use Rattle.tokens.specs.Sizes.{most_path_bytes};
ghost use Rattle.lookups.specs.Values.{absent, ShownAt};
ghost use Rattle.lookups.specs.Lookups.{look_in, base_of};
ghost use Rattle.slots.specs.Slots.{slot_count, places_size, kept_sections, start_slot, FirstFree, SlotPut, Filled, Indexed};

use bags::sections::Sections;
use lookups::bytes::same_bytes;
use lookups::finding::base_place;
use lookups::steps::value_next;
use tokens::sizes::MOST_PATH_BYTES;

// How many numbers are kept: the slots of three roots, the three places of the sections, and seven that belong to a row's columns.
pub const KEPT: usize = 202;

// How many slots a root has.
const SLOTS: usize = 64;

// A slot from a path's length and three of its bytes: each counts with an odd factor, so that paths which differ in one of them alone start apart.
fn mixed(n: usize, last: u8, first: u8, middle: u8) -> usize
    requires { n ≤ most_path_bytes }
    ensures is { result ≡ (5 * (n + last) + 3 * first + 9 * middle) % slot_count }
    ensures low { result < slot_count }
{
    (5 * (n + last as usize) + 3 * (first as usize) + 9 * (middle as usize)) % SLOTS
}

// The slot at which the search for a path starts.
fn start_slot(path: &[u8]) -> usize
    requires path_nonzero { 0 < length path.now }
    requires path_len_bound { length path.now ≤ most_path_bytes }
    ensures is { result ≡ start_slot path.now }
    ensures low { result < slot_count }
{
    let n = path.len();
    mixed(n, path[n - 1], path[0], path[n / 2])
}

// The first empty slot from a start on, round the slots of a root.
fn free_slot(places: &[u16; KEPT], base: usize, start: usize) -> Option<usize>
    requires slot_count_bound { base + slot_count ≤ places_size }
    requires start_lt_slot_count { start < slot_count }
    ensures { FirstFree places.now base start result }
{
    for tries in 0..SLOTS {
        let k = base + (start + tries) % SLOTS;
        if places[k] == 0 {
            return Some(k);
        }
    }
    None
}

// Puts the place of an entry into the slots of its root.
fn put_entry(s: &[u8], places: &mut [u16; KEPT], base: usize, at: usize)
    requires places_len { length places.old ≡ places_size }
    requires slot_count_bound { base + slot_count ≤ places_size }
    requires at_nonzero { 0 < at }
    requires s_len_bound { length s.now ≤ most_bag_bytes }
    requires by_index { (e : ℕ) × (entry_end s.now at ≡ Some e) }
    ensures { SlotPut places.old places.new base (start_slot (path_at s.now at)) at }
{
    let n = s[at] as usize;
    let first = at + 1;
    let end = first + n;
    let start = start_slot(&s[first..end]);
    if let Some(k) = free_slot(places, base, start) {
        places[k] = at as u16;
    }
}

// Puts the entries of the section whose count byte stands at `b` into the slots of its root, which are empty.
fn put_section(s: &[u8], places: &mut [u16; KEPT], base: usize, b: usize)
    requires places_len { length places.old ≡ places_size }
    requires slot_count_bound { base + slot_count ≤ places_size }
    requires by_index { (k : ℕ) → base ≤ k → k < base + slot_count → get_or places.old k 0 ≡ 0 }
    requires s_len_bound { length s.now ≤ most_bag_bytes }
    requires by_index_2 { (e : ℕ) × (section_end s.now b ≡ Some e) }
    ensures { Filled s.now places.old places.new base b }
{
    let mut next = b + 1;
    for _ in 0..s[b] {
        put_entry(s, places, base, next);
        let kind_at = next + 1 + s[next] as usize;
        next = value_next(s[kind_at], s, kind_at + 1);
    }
}

// The places of a bag's entries, and of its sections.
pub fn index_of(s: &[u8], p: Sections) -> [u16; KEPT]
    requires sectioned { Sectioned s.now p }
    requires s_len_bound { length s.now ≤ most_bag_bytes }
    ensures sections { kept_sections result ≡ p }
    ensures indexed { Indexed s.now result }
    ensures free { (i : ℕ) → 195 ≤ i → get_or result i 0 ≡ 0 }
    ensures sized { length result ≡ places_size }
{
    let mut places = [0u16; KEPT];
    put_section(s, &mut places, 0, 0);
    put_section(s, &mut places, 64, p.resource);
    put_section(s, &mut places, 128, p.env);
    places[192] = p.resource as u16;
    places[193] = p.env as u16;
    places[194] = p.end as u16;
    places
}

// The sections whose places are kept.
pub fn sections_in(places: &[u16; KEPT]) -> Sections
    ensures { result ≡ kept_sections places.now }
{
    Sections {
        resource: places[192] as usize,
        env: places[193] as usize,
        end: places[194] as usize,
    }
}

// Whether no byte of a path can be a blank.
fn is_plain(path: &[u8]) -> bool
    ensures { result ≡ true → unblanked path.now ≡ path.now }
{
    for c in path {
        if *c <= b' ' {
            return false;
        }
    }
    true
}

// Whether the entry at a place has these bytes as its path.
fn has_path(s: &[u8], at: usize, path: &[u8]) -> bool
    requires { kind_at s.now at < length s.now }
    ensures { result ≡ same (path_at s.now at) path.now }
{
    let n = path.len();
    if s[at] as usize == n {
        let start = at + 1;
        let end = start + n;
        same_bytes(&s[start..end], path)
    } else {
        false
    }
}

// Whether a path of so many bytes may stand in the slots of a root byte.
fn has_slots(n: usize, root: u8) -> bool
    ensures { result ≡ true → ((0 < n) × (n ≤ most_path_bytes)) × ((0 < root) × (root ≤ 3)) }
{
    ((0 < n) & (n <= MOST_PATH_BYTES)) & ((0 < root) & (root <= 3))
}

// Where the attribute of a root byte and a path stands, by going through the section.
fn place_through(s: &[u8], places: &[u16; KEPT], root: u8, path: &[u8]) -> usize
    requires { Sectioned s.now (kept_sections places.now) }
    ensures { ShownAt s.now result
        (look_in absent (base_of s.now (kept_sections places.now) root) (unblanked path.now)) }
{
    base_place(s, sections_in(places), root, path)
}

// Where the attribute of a root byte and a path stands: from the path's first slot on, and through the section where the slots do not tell. It is the place
// of its kind byte, or the end of the bytes where it is absent.
pub fn place_in(s: &[u8], places: &[u16; KEPT], root: u8, path: &[u8]) -> usize
    requires sectioned { Sectioned s.now (kept_sections places.now) }
    requires indexed { Indexed s.now places.now }
    ensures { ShownAt s.now result
        (look_in absent (base_of s.now (kept_sections places.now) root) (unblanked path.now)) }
{
    let n = path.len();
    if !has_slots(n, root) {
        return place_through(s, places, root, path);
    }
    let base = SLOTS * (root as usize - 1);
    let start = start_slot(path);
    for tries in 0..SLOTS {
        let at = places[base + (start + tries) % SLOTS] as usize;
        if at == 0 {
            if is_plain(path) {
                return s.len();
            }
            return place_through(s, places, root, path);
        }
        if has_path(s, at, path) {
            return at + 1 + n;
        }
    }
    place_through(s, places, root, path)
}
