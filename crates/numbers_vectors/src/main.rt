// Reads number literals and eight bytes for each, and writes a line for each pair: the bits of the literal's number, whether the bytes are a finite number,
// and if so how the two compare. A literal that is not one number token gets a minus.
#![tactic(auto)]

ghost use Rattle.std.specs.Prelude.{true, ◌≡◌};
ghost use Rattle.numbers.specs.Literals.{IsNumber};

use numbers::bits::{is_number_at, number_at};
use numbers::comparing::{Comparator, compares};
use numbers::literals::number;
use std::io::Read;
use token_reader::next_token;
use tokens::kinds;
use vectors::{read_part, vector_count};

// How two numbers compare by a comparator: 1 or 0.
fn compared(comparator: Comparator, x: f64, y: f64) -> u8 {
    u8::from(compares(comparator, x, y))
}

// Writes how two numbers compare: `<`, `<=`, `>`, `>=`, `==` and `!=`.
fn print_compared<P: Print>(rt: &P, x: f64, y: f64) {
    let _ = println!(rt;
        "1 {}{}{}{}{}{}",
        compared(Comparator::Less, x, y),
        compared(Comparator::AtMost, x, y),
        compared(Comparator::More, x, y),
        compared(Comparator::AtLeast, x, y),
        compared(Comparator::Same, x, y),
        compared(Comparator::Other, x, y)
    );
}

// Whether the bytes are one number token; then they are a number literal.
fn is_literal(bytes: &[u8]) -> bool
    ensures { result ≡ true → IsNumber bytes.now }
{
    let t = next_token(bytes, 0);
    (t.kind == kinds::NUMBER) & (t.start == 0) & (t.end == bytes.len())
}

// Writes the line of a literal and eight bytes.
fn answer<P: Print>(rt: &P, literal: &[u8], bytes: &[u8; 8]) {
    if !is_literal(literal) {
        let _ = println!(rt; "-");
        return;
    }
    let x = number(literal);
    let _ = print!(rt; "{:016x} ", x.to_bits());
    if is_number_at(bytes, 0) {
        print_compared(rt, x, number_at(bytes, 0));
    } else {
        let _ = println!(rt; "0");
    }
}

// One vector: a literal, and the eight bytes. Bytes that the input lacks are 0.
fn vector<P: Print, R: Read>(rt: &P, input: &mut R) {
    let mut literal = [0u8; 64];
    let mut bytes = [0u8; 8];
    let n = read_part(input, &mut literal);
    read_part(input, &mut bytes);
    answer(rt, &literal[..n], &bytes);
}

fn main(rt: HostRuntime) {
    let mut input = rt.reader();
    for _ in 0..vector_count(&mut input) {
        vector(&rt, &mut input);
    }
}
