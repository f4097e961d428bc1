// Tells of test texts and tables whether the text compiles and the table begins with its bytes: a line `1` or `0` for each.
#![tactic(auto)]

use std::io::Read;
use vectors::{read_part, vector_count};

// One vector: a text and a table.
fn vector<P: Print, R: Read>(rt: &P, input: &mut R) {
    let mut text = [0u8; 8300];
    let n = read_part(input, &mut text);
    let mut table = [0u8; 65536];
    let m = read_part(input, &mut table);
    let begins = desk::desk_begins(&text[..n], &table[..m]);
    let _ = println!(rt; "{}", u8::from(begins));
}

fn main(rt: HostRuntime) {
    let mut input = rt.reader();
    for _ in 0..vector_count(&mut input) {
        vector(&rt, &mut input);
    }
}
