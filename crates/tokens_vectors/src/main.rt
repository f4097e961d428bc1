// Reads all tokens of test texts, and writes a line for each text: how many tokens it has, a sum over all of them with their lines and columns, and the first
// token that is refused, or the end. A refused token is passed like any other.
#![tactic(auto)]

ghost use Rattle.std.specs.Prelude.{◌≡◌, ℕ, ◌<◌, ◌≤◌};

use places::{Place, place_of};
use std::io::Read;
use token_reader::next_token;
use tokens::kinds;
use tokens::reader::Token;
use vectors::{read_part, vector_count, with};

// The sum with a token and its place.
fn with_token(sum: u64, t: Token, p: Place) -> u64
    requires { sum < 1000003 }
    ensures { result < 1000003 }
{
    let s = with(sum, u64::from(t.kind));
    let s = with(s, t.start as u64);
    let s = with(s, t.end as u64);
    let s = with(s, p.line as u64);
    with(s, p.column as u64)
}

// The first refused token: the one before, if it was one, else this.
fn first_refused(before: Token, t: Token) -> Token
    ensures { (n : ℕ) → before.start ≤ n → t.start ≤ n → result.start ≤ n }
{
    if kinds::BAD_BYTE <= before.kind && before.kind <= kinds::TOO_LONG {
        before
    } else {
        t
    }
}

// The line of a text: its tokens' number and sum, and the token told of with its place.
fn report<P: Print>(rt: &P, count: usize, sum: u64, t: Token, p: Place) {
    let _ = println!(rt;
        "{count} {sum} {} {} {} {} {}",
        t.kind, t.start, t.end, p.line, p.column
    );
}

// Reads all tokens of the text, up to its end, and writes its line.
fn list<P: Print>(rt: &P, text: &[u8]) {
    let mut at = 0;
    let mut count = 0;
    let mut sum: u64 = 0;
    let mut told = Token {
        kind: kinds::END_OF_TEXT,
        start: 0,
        end: 0,
    };
    loop {
        let t = next_token(text, at);
        sum = with_token(sum, t, place_of(text, t.start));
        told = first_refused(told, t);
        count += 1;
        if t.kind == kinds::END_OF_TEXT {
            report(rt, count, sum, told, place_of(text, told.start));
            return;
        }
        at = t.end;
    }
}

// One vector: a text, which may be a few bytes too long.
fn vector<P: Print, R: Read>(rt: &P, input: &mut R) {
    let mut text = [0u8; 8200];
    let n = read_part(input, &mut text);
    list(rt, &text[..n]);
}

fn main(rt: HostRuntime) {
    let mut input = rt.reader();
    for _ in 0..vector_count(&mut input) {
        vector(&rt, &mut input);
    }
}
