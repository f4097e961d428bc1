// The pieces of a permit written: `put` for each, one behind the other. Each answers the place behind what it wrote.
#![tactic(auto)]

ghost use Rattle.std.specs.Prelude.{◌≡◌, ◌≤◌, ◌+◌, length};
ghost use Rattle.permits.specs.Permits.{quoted, of_principal, test_text};
ghost use Rattle.locks.specs.Reading.{mark_text, test_by};
ghost use Rattle.locks.specs.Answers.{PutOver};

use locks::vocabulary::{EQUALITY, MEMBERSHIP};
use tokens::kinds;

// Some bytes.
pub fn put(room: &mut [u8], at: usize, bytes: &[u8]) -> usize
    requires { at + length bytes.now ≤ length room.old }
    ensures { PutOver room.old at bytes.now room.new result }
{
    // not by copy_from_slice, which may call memmove: C programs are asked for memcpy and memset alone
    for i in 0..bytes.len() {
        room[at + i] = bytes[i];
    }
    at + bytes.len()
}

// A string with its quotes.
pub fn put_quoted(room: &mut [u8], at: usize, bytes: &[u8]) -> usize
    requires { at + length (quoted bytes.now) ≤ length room.old }
    ensures { PutOver room.old at (quoted bytes.now) room.new result }
{
    let start = put(room, at, b"\"");
    let end = put(room, start, bytes);
    put(room, end, b"\"")
}

// The attribute of the principal with a path.
fn put_attribute(room: &mut [u8], at: usize, path: &[u8]) -> usize
    requires { at + length (of_principal path.now) ≤ length room.old }
    ensures { PutOver room.old at (of_principal path.now) room.new result }
{
    let start = put(room, at, b"principal.");
    put(room, start, path)
}

// A comparator's mark, with a blank on either side.
fn put_mark(room: &mut [u8], at: usize, mark: u8) -> usize
    requires { at + length (mark_text mark) ≤ length room.old }
    ensures { PutOver room.old at (mark_text mark) room.new result }
{
    match mark {
        b'>' => put(room, at, b" > "),
        b'<' => put(room, at, b" < "),
        kinds::AT_LEAST => put(room, at, b" >= "),
        _ => put(room, at, b" <= "),
    }
}

// A test as a condition.
pub fn put_test(room: &mut [u8], at: usize, sort: u8, mark: u8, path: &[u8], value: &[u8]) -> usize
    requires { at + length (test_text (test_by sort mark path.now value.now)) ≤ length room.old }
    ensures { PutOver room.old at (test_text (test_by sort mark path.now value.now)) room.new result }
{
    match sort {
        EQUALITY => {
            let left = put_attribute(room, at, path);
            let between = put(room, left, b" == ");
            put_quoted(room, between, value)
        }
        MEMBERSHIP => {
            let left = put_quoted(room, at, value);
            let between = put(room, left, b" in ");
            put_attribute(room, between, path)
        }
        _ => {
            let left = put_attribute(room, at, path);
            let between = put_mark(room, left, mark);
            put(room, between, value)
        }
    }
}
