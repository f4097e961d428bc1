// Compiles test texts, each into a table with a given room, and writes a line for each: policies, bytes used and a sum over them, or the refusal's number, place and length.
#![tactic(auto)]

ghost use Rattle.std.specs.Prelude.{◌≤◌};

use desk::DeskCompiled;
use packed::{Parts, for_each_vector};
use vectors::{number_in, sum_of};

// Writes the line of an answer.
fn report<P: Print>(rt: &P, answer: DeskCompiled, table: &[u8]) {
    let _ = if 0 < answer.refusal {
        println!(rt;
            "R {} {} {} {}",
            answer.refusal, answer.line, answer.column, answer.length
        )
    } else {
        let used = table.get(..answer.bytes).unwrap_or(table);
        println!(rt; "P {} {} {}", answer.policies, answer.bytes, sum_of(used))
    };
}

// The room for a text of n bytes: 8 for each byte and a shift, and none where that is below zero.
fn room(n: usize, shift: i16) -> usize
    requires { n ≤ 8300 }
{
    (8 * n).saturating_add_signed(isize::from(shift))
}

// One vector: a text, the room's shift and the version.
fn vector<P: Print>(rt: &P, mut parts: Parts<'_>, table: &mut [u8]) {
    let text = parts.next_part();
    let shift = parts.next_part();
    let version = number_in(parts.next_part());
    let Some(shift) = shift.first_chunk() else {
        return;
    };
    if text.len() > 8300 {
        return;
    }
    let size = room(text.len(), i16::from_le_bytes(*shift));
    if let Some(lent) = table.get_mut(..size) {
        let answer = desk::desk_compile(text, lent, version);
        report(rt, answer, lent);
    }
}

// The table has the largest room of a text of 8,300 bytes.
fn main(rt: HostRuntime) {
    let mut table = [0u8; 99200];
    for_each_vector(&mut rt.reader(), |parts| vector(&rt, parts, &mut table));
}
