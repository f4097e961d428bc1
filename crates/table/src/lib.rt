// The table's bytes: nothing else looks into a table or writes into one. An entry is there whole or not at all.
#![tactic(auto)]

pub mod entries;

ghost use Rattle.std.specs.Prelude.{◌≡◌, ◌&&◌, ◌<◌, ◌^◌};
ghost use Rattle.table.specs.Layout.{put_at, of_two_bytes, entries_in, entry_at, entry_is};
ghost use Rattle.table.specs.Entries.{step_of};
ghost use Rattle.table.specs.Recorded.{recorded as recorded_version};

use grammar::Version;

// How many bytes an entry takes in a table: the kind, and two for each field.
pub const ENTRY_SIZE: usize = 5;

// An entry: a kind and two fields.
#[derive(Clone, Copy)]
pub struct Entry {
    pub kind: u8,
    pub first: usize,
    pub second: usize,
}

// Two bytes as a number, the low byte first.
fn number_of(low: u8, high: u8) -> usize
    ensures { result ≡ of_two_bytes low high }
{
    usize::from(u16::from_le_bytes([low, high]))
}

// Entry `number` of a table that has it.
pub fn entry_in(table: &[u8], number: usize) -> Entry
    requires { number < entries_in table.now }
    ensures { result ≡ entry_at table.now number }
{
    let p = ENTRY_SIZE * number;
    Entry {
        kind: table[p],
        first: number_of(table[p + 1], table[p + 2]),
        second: number_of(table[p + 3], table[p + 4]),
    }
}

// Entry `number` of a table, with zeros where the table has none.
pub fn entry_at(table: &[u8], number: usize) -> Entry
    requires { number < 2 ^ 60 }
    ensures { result ≡ entry_at table.now number }
{
    if ENTRY_SIZE * number + ENTRY_SIZE <= table.len() {
        return entry_in(table, number);
    }
    Entry {
        kind: 0,
        first: 0,
        second: 0,
    }
}

// Whether this is entry `number` of the table.
fn entry_is(table: &[u8], number: usize, x: Entry) -> bool
    requires { number < 2 ^ 60 }
    ensures { result ≡ entry_is table.now number x }
{
    let p = ENTRY_SIZE * number;
    if p + ENTRY_SIZE <= table.len() {
        let kind = table[p] == x.kind;
        let first = number_of(table[p + 1], table[p + 2]) == x.first % 65536;
        let second = number_of(table[p + 3], table[p + 4]) == x.second % 65536;
        kind & first & second
    } else {
        false
    }
}

// Puts an entry into the table, where there is room for all of it.
fn put_entry(table: &mut [u8], number: usize, x: Entry)
    requires { number < 2 ^ 60 }
    ensures { table.new ≡ put_at table.old number x }
{
    let p = ENTRY_SIZE * number;
    if p + ENTRY_SIZE <= table.len() {
        table[p] = x.kind;
        table[p + 1] = (x.first % 256) as u8;
        table[p + 2] = (x.first / 256 % 256) as u8;
        table[p + 3] = (x.second % 256) as u8;
        table[p + 4] = (x.second / 256 % 256) as u8;
    }
}

// One entry more: put into the one table, and compared with what the other has there. `same` says whether that one had all entries before.
pub fn append(table: &mut [u8], seen: &[u8], number: usize, same: bool, x: Entry) -> bool
    requires { number < 2 ^ 60 }
    ensures { (result ≡ same && entry_is seen.now number x) × (table.new ≡ put_at table.old number x) }
{
    put_entry(table, number, x);
    let here = entry_is(seen, number, x);
    same & here
}

// The version that a table records, by the kind of its first entry.
pub fn recorded(table: &[u8]) -> Version
    ensures { result ≡ recorded_version table.now }
{
    if entries::FORBID < entry_at(table, 0).kind {
        Version::Second
    } else {
        Version::First
    }
}

// How much higher the kind of a principal part is under a version.
pub fn step_of(version: Version) -> u8
    ensures { result ≡ step_of version }
{
    match version {
        Version::First => 0,
        Version::Second => entries::SECOND_STEP,
    }
}
