// Reads test questions, and writes a line for each: 24 where the bytes are no question, else the number of its rows, and for each column how many candidates it
// has and where their kind bytes stand.
#![tactic(auto)]

ghost use Rattle.questions.specs.Questions.{Question};

use bags::sections::Sections;
use questions::grid::places;
use questions::question_sections;
use std::io::Read;
use vectors::{read_part, vector_count};

// Writes how many candidates a column has, and where they stand: past the last of them the places are 0.
fn report_column<P: Print>(rt: &P, column: &[usize; 8]) {
    let n = column.iter().position(|place| *place == 0).unwrap_or(8);
    let _ = print!(rt; " {n}");
    for place in column.iter().take(n) {
        let _ = print!(rt; " {place}");
    }
}

fn report<P: Print>(rt: &P, s: &[u8], p: Sections)
    requires { Question s.now p }
{
    let at = p.end;
    let n = usize::from(s[at]);
    let _ = print!(rt; "{}", desk::desk_rows(s));
    let grid = places(s, at + 1, n);
    for column in grid.iter().take(n) {
        report_column(rt, column);
    }
    let _ = println!(rt);
}

fn answer<P: Print>(rt: &P, s: &[u8]) {
    match question_sections(s) {
        Some(p) => report(rt, s, p),
        None => {
            let _ = println!(rt; "24");
        }
    }
}

fn vector<P: Print, R: Read>(rt: &P, input: &mut R) {
    let mut bytes = [0u8; 8192];
    let n = read_part(input, &mut bytes);
    answer(rt, &bytes[..n]);
}

fn main(rt: HostRuntime) {
    let mut input = rt.reader();
    for _ in 0..vector_count(&mut input) {
        vector(&rt, &mut input);
    }
}
