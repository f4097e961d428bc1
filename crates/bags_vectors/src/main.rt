// Looks attributes up in test bags, and writes a line for each: 24 where the bytes are no bag, else the kind, the number's bits and the place, and the length
// and the sum of the part that a string's bytes are.
#![tactic(auto)]

ghost use Rattle.std.specs.Prelude.{T};
ghost use Rattle.std.specs.Float.Ieee.Scale.{finite};

use desk::{DeskString, DeskValue};
use std::io::Read;
use vectors::{read_part, sum_of, vector_count};

// The bytes at a place of the bag, where they lie in it.
fn part_at(bag: &[u8], place: DeskString) -> Option<&[u8]> {
    bag.get(place.start..)?.get(..place.length)
}

// A value's line. The place of a string's bytes and the part that is lent have to be the same bytes.
fn report<P: Print>(rt: &P, v: DeskValue, bag: &[u8], place: DeskString, part: &[u8])
    requires { T (finite v.number) }
{
    let sum = match part_at(bag, place) {
        Some(found) if found == part => sum_of(part),
        _ => 1000003,
    };
    let _ = println!(rt;
        "{} {:016x} {} {} {sum}",
        v.kind,
        v.number.to_bits(),
        v.place,
        part.len()
    );
}

fn answer<P: Print>(rt: &P, bag: &[u8], root: u8, path: &[u8]) {
    let v = desk::desk_lookup(bag, root, path);
    if 0 < v.refusal {
        let _ = println!(rt; "{}", v.refusal);
        return;
    }
    let place = desk::desk_string(bag, root, path);
    report(rt, v, bag, place, desk::string_part(bag, root, path));
}

// One vector: a bag, a root byte and a path.
fn vector<P: Print, R: Read>(rt: &P, input: &mut R) {
    let mut bag = [0u8; 8192];
    let mut root = [0u8; 1];
    let mut path = [0u8; 256];
    let b = read_part(input, &mut bag);
    read_part(input, &mut root);
    let p = read_part(input, &mut path);
    answer(rt, &bag[..b], root[0], &path[..p]);
}

fn main(rt: HostRuntime) {
    let mut input = rt.reader();
    for _ in 0..vector_count(&mut input) {
        vector(&rt, &mut input);
    }
}
