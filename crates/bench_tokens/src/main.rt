// Reads all tokens of one text again and again, so that the instructions of the token reader can be counted, and writes the sum of their kinds, starts and ends.
// The input is one test vector, with the number of repetitions where the number of vectors stands.
#![tactic(auto)]

use token_reader::next_token;
use tokens::kinds;
use tokens::reader::Token;
use vectors::{read_part, vector_count};

// The sum with a token.
fn plus(sum: u64, t: Token) -> u64 {
    sum.wrapping_add(u64::from(t.kind))
        .wrapping_add(t.start as u64)
        .wrapping_add(t.end as u64)
}

// The sum with all tokens of the text. The reader is called from three places, so that the compiler keeps it a function, as in a parser.
fn with_all(text: &[u8], before: u64) -> u64 {
    let mut at = 0;
    let mut sum = before;
    loop {
        let first = next_token(text, at);
        sum = plus(sum, first);
        if first.kind == kinds::END_OF_TEXT {
            return sum;
        }
        let second = next_token(text, first.end);
        sum = plus(sum, second);
        if second.kind == kinds::END_OF_TEXT {
            return sum;
        }
        let third = next_token(text, second.end);
        sum = plus(sum, third);
        if third.kind == kinds::END_OF_TEXT {
            return sum;
        }
        at = third.end;
    }
}

// The sum after so many passes over the text.
fn repeat(times: u32, text: &[u8]) -> u64 {
    let mut sum: u64 = 0;
    for _ in 0..times {
        sum = with_all(text, sum);
    }
    sum
}

fn main(rt: HostRuntime) {
    let mut input = rt.reader();
    let mut text = [0u8; 8200];
    let times = vector_count(&mut input);
    let n = read_part(&mut input, &mut text);
    let _ = println!(rt; "{}", repeat(times, &text[..n]));
}
