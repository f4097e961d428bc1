// Runs `like` on test vectors, a pattern and a string each, and writes a line for each: 1 where the pattern matches, 2 where it is no UTF-8, so that `like`
// may not be asked, else 0.
#![tactic(auto)]

use std::io::Read;
use vectors::{read_part, vector_count};

// One vector: both parts have at most 256 bytes.
fn vector<P: Print, R: Read>(rt: &P, input: &mut R) {
    let mut pattern = [0u8; 256];
    let mut string = [0u8; 256];
    let p = read_part(input, &mut pattern);
    let s = read_part(input, &mut string);
    let told = if utf8::is_utf8(&pattern[..p]) {
        u8::from(patterns::like(&pattern[..p], &string[..s]))
    } else {
        2
    };
    let _ = println!(rt; "{told}");
}

fn main(rt: HostRuntime) {
    let mut input = rt.reader();
    for _ in 0..vector_count(&mut input) {
        vector(&rt, &mut input);
    }
}
