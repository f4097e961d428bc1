// Tallies test questions, and writes a line for each: `T` and the place and number of each count that is not 0, or `R` and the refusal's number and then a sum of
// all the counts, which are lent with a pattern in them.
#![tactic(auto)]

use packed::{Parts, for_each_vector};
use vectors::{number_in, sum_of};

// The counts before the call: count n is n + 1.
fn fill(counts: &mut [u32; 612]) {
    for (n, count) in counts.iter_mut().enumerate() {
        *count = n as u32 + 1;
    }
}

fn report<P: Print>(rt: &P, refusal: u32, counts: &[u32; 612]) {
    if 0 < refusal {
        let _ = println!(rt; "R {refusal} {}", sum_of(counts));
        return;
    }
    let _ = print!(rt; "T");
    for (n, count) in counts.iter().enumerate() {
        if 0 < *count {
            let _ = print!(rt; " {n} {count}");
        }
    }
    let _ = println!(rt);
}

// One vector: a text, a table, a question, the number of requests, and these as they are lent.
fn vector<P: Print>(rt: &P, mut parts: Parts<'_>) {
    let text = parts.next_part();
    let table = parts.next_part();
    let question = parts.next_part();
    let many = number_in(parts.next_part()) as usize;
    let requests = parts.next_part();
    let mut counts = [0u32; 612];
    fill(&mut counts);
    let refusal = desk::desk_tally(text, table, question, many, requests, &mut counts);
    report(rt, refusal, &counts);
}

fn main(rt: HostRuntime) {
    for_each_vector(&mut rt.reader(), |parts| vector(&rt, parts));
}
