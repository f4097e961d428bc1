// Attributes of a bag, looked up by root byte and dotted path.
#![tactic(auto)]

ghost use Rattle.std.specs.Prelude.{◌≡◌, ◌+◌, ◌≤◌, length};
ghost use Rattle.slices.specs.Parts.{IsPart};
ghost use Rattle.lookups.specs.Lookups.{lookup_of, start_of, length_of, stretch_of};

use crate::finding::base_value;
use crate::values::{Value, absent_value};
use bags::paths::is_path;
use bags::sections::bag_sections;
use bags::values::STRING;

pub mod bytes;
pub mod finding;
pub mod steps;
pub mod values;

// The number of the refusal: not a bag.
const NO_BAG: u8 = 24;

// The kind, the number and the place of an attribute, or the number of the refusal.
pub fn lookup(bag: &[u8], root: u8, path: &[u8]) -> Result<Value, u8>
    ensures { result ≡ lookup_of bag.now root path.now }
{
    let Some(p) = bag_sections(bag) else {
        return Err(NO_BAG);
    };
    if is_path(path) {
        Ok(base_value(bag, p, root, path))
    } else {
        Ok(absent_value())
    }
}

// Where a string's bytes lie in the bag, and how many they are; 0 and 0 for anything else.
#[repr(C)]
#[derive(Clone, Copy)]
pub struct Stretch {
    pub start: usize,
    pub length: usize,
}

pub fn string_place(bag: &[u8], root: u8, path: &[u8]) -> Stretch
    ensures is { result ≡ stretch_of bag.now (lookup_of bag.now root path.now) }
    ensures inside { result.start + result.length ≤ length bag.now }
{
    match lookup(bag, root, path) {
        Ok(v) if v.kind == STRING => Stretch {
            start: v.place + 1,
            length: bag[v.place] as usize,
        },
        _ => Stretch {
            start: 0,
            length: 0,
        },
    }
}

// A string's bytes, as a part of the caller's bag; an empty part for anything else.
pub fn string_part<'a>(bag: &'a [u8], root: u8, path: &[u8]) -> &'a [u8]
    ensures { IsPart bag.entry result (start_of (lookup_of bag.now root path.now))
        (length_of bag.now (lookup_of bag.now root path.now)) }
{
    let Stretch { start, length } = string_place(bag, root, path);
    let end = start + length;
    &bag[start..end]
}
