// Compiles one text again and again under version 1, and asks again and again whether its table begins right, so that the instructions can be counted. The input: how often to
// compile and how often to ask, in 4 bytes each, and the text as one part.
#![tactic(auto)]

ghost use Rattle.std.specs.Prelude.{◌<◌};

use compiling::{Compiled, Refused, begins, compile};
use vectors::{read_part, stamp, vector_count};

// The bytes used, or the refusal's number.
fn used(answer: Result<Compiled, Refused>) -> u64 {
    match answer {
        Ok(c) => c.bytes as u64,
        Err(r) => u64::from(r.number),
    }
}

// Compiles once: the sum, and the bytes used or the refusal's number.
fn compile_once(text: &[u8], table: &mut [u8], sum: u64) -> u64
    requires { sum < 1000003 }
    ensures { result < 1000003 }
{
    stamp(table, sum);
    let answer = compile(1, text, table);
    (sum + used(answer) % 1000003) % 1000003
}

// Compiles so many times.
fn compile_often(times: u32, text: &[u8], table: &mut [u8]) -> u64 {
    let mut sum: u64 = 0;
    for _ in 0..times {
        sum = compile_once(text, table, sum);
    }
    sum
}

// Asks once: the sum, and one more where the table begins right.
fn ask_once(text: &[u8], table: &mut [u8], sum: u64) -> u64
    requires { sum < 1000003 }
    ensures { result < 1000003 }
{
    stamp(table, sum);
    (sum + u64::from(begins(text, table))) % 1000003
}

// Asks so many times.
fn ask_often(times: u32, text: &[u8], table: &mut [u8]) -> u64 {
    let mut sum: u64 = 0;
    for _ in 0..times {
        sum = ask_once(text, table, sum);
    }
    sum
}

// The table has one byte more than the room of the largest text: the one that is stamped.
fn main(rt: HostRuntime) {
    let mut input = rt.reader();
    let mut table = [0u8; 65537];
    let mut text = [0u8; 8192];
    let compiles = vector_count(&mut input);
    let asks = vector_count(&mut input);
    let n = read_part(&mut input, &mut text);
    let a = compile_often(compiles, &text[..n], &mut table);
    let b = ask_often(asks, &text[..n], &mut table);
    let _ = println!(rt; "{a} {b}");
}
