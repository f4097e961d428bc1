// Asks for pages of the sheets of test questions, and writes a line for each: rows written and next, or `R` and the refusal's number; and then a sum of the
// whole sheet, which is lent with a pattern in it.
#![tactic(auto)]

use desk::DeskPage;
use packed::{Parts, for_each_vector};
use vectors::{number_in, sum_of};

fn report<P: Print>(rt: &P, answer: DeskPage, sheet: &[u8]) {
    let _ = if 0 < answer.refusal {
        println!(rt; "R {} {}", answer.refusal, sum_of(sheet))
    } else {
        println!(rt; "{} {} {}", answer.written, answer.next, sum_of(sheet))
    };
}

// One vector: a text, a table, a question, a request's subject, action and resource, and what is wanted: the start row, the sheet's length and the named byte.
fn vector<P: Print>(rt: &P, mut parts: Parts<'_>) {
    let text = parts.next_part();
    let table = parts.next_part();
    let question = parts.next_part();
    let subject = parts.next_part();
    let action = parts.next_part();
    let resource = parts.next_part();
    let start = number_in(parts.next_part()) as usize;
    let length = (number_in(parts.next_part()) % 65536) as usize;
    let named = number_in(parts.next_part()) as usize;
    let mut space = [0u8; 65536];
    let lent = &mut space[..length];
    vectors::fill(lent);
    let answer = desk::desk_sheet(
        text, table, question, subject, action, resource, start, lent, named,
    );
    report(rt, answer, lent);
}

fn main(rt: HostRuntime) {
    for_each_vector(&mut rt.reader(), |parts| vector(&rt, parts));
}
