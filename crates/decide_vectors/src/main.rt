// Decides test requests, and writes a line for each: the outcome, the policy's number and the mark, or `R` and the refusal's number.
#![tactic(auto)]

use desk::DeskDecision;
use packed::{Parts, for_each_vector};

// A line for an answer.
fn report<P: Print>(rt: &P, answer: DeskDecision) {
    let _ = if 0 < answer.refusal {
        println!(rt; "R {}", answer.refusal)
    } else {
        println!(rt; "{} {} {}", answer.outcome, answer.policy, answer.mark)
    };
}

// One vector: a text, a table, a bag, and a request's subject, action and resource.
fn vector<P: Print>(rt: &P, mut parts: Parts<'_>) {
    let text = parts.next_part();
    let table = parts.next_part();
    let bag = parts.next_part();
    let subject = parts.next_part();
    let action = parts.next_part();
    let resource = parts.next_part();
    report(
        rt,
        desk::desk_decide(text, table, bag, subject, action, resource),
    );
}

fn main(rt: HostRuntime) {
    for_each_vector(&mut rt.reader(), |parts| vector(&rt, parts));
}
