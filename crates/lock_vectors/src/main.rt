// Writes the permits of test locks, and writes a line for each: the permit's length, or `R` and the refusal's number; a sum of the whole room, which is lent with a pattern
// in it; and what the permit decides of a request over a bag, compiled under version 1 and then under version 2: the outcome and the policy's number, or `R` and the
// refusal's number.
#![tactic(auto)]

use packed::{Parts, for_each_vector};
use vectors::sum_of;

// The permit, compiled under a version, decides; the parts are the bag and the request's subject, action and resource.
fn decide<P: Print>(rt: &P, permit: &[u8], version: u64, mut parts: Parts<'_>) {
    let bag = parts.next_part();
    let subject = parts.next_part();
    let action = parts.next_part();
    let resource = parts.next_part();
    let mut table = [0u8; 65536];
    desk::desk_compile(permit, &mut table, version);
    let answer = desk::desk_decide(permit, &table, bag, subject, action, resource);
    let _ = if 0 < answer.refusal {
        print!(rt; "R {}", answer.refusal)
    } else {
        print!(rt; "{} {}", answer.outcome, answer.policy)
    };
}

// Writes a permit into the room that is lent, and has it decide over the parts that are left.
fn run<P: Print>(
    rt: &P,
    vocabulary: &[u8],
    lock: &[u8],
    actions: &[u8],
    resource: &[u8],
    room: &mut [u8],
    left: Parts<'_>,
) {
    vectors::fill(room);
    let answer = desk::desk_lock(vocabulary, lock, actions, resource, room);
    if 0 < answer.refusal {
        let _ = println!(rt; "R {} {}", answer.refusal, sum_of(room));
        return;
    }
    let _ = print!(rt; "{} {} ", answer.length, sum_of(room));
    if let Some(permit) = room.get(..answer.length) {
        decide(rt, permit, 1, left);
        let _ = print!(rt; " ");
        decide(rt, permit, 2, left);
        let _ = println!(rt);
    }
}

// One vector: a vocabulary, a lock, actions, a resource, the room's length, 0 where it has no two bytes, and the bag and the request.
fn vector<P: Print>(rt: &P, mut parts: Parts<'_>) {
    let vocabulary = parts.next_part();
    let lock = parts.next_part();
    let actions = parts.next_part();
    let resource = parts.next_part();
    let length = match parts.next_part().first_chunk() {
        Some(size) => usize::from(u16::from_le_bytes(*size)),
        None => 0,
    };
    let mut space = [0u8; 65536];
    run(
        rt,
        vocabulary,
        lock,
        actions,
        resource,
        &mut space[..length],
        parts,
    );
}

fn main(rt: HostRuntime) {
    for_each_vector(&mut rt.reader(), |parts| vector(&rt, parts));
}
