// The permit of a lock written, and the call: vocabulary, lock, action list and resource are measured, and the one permit that they say is put over the start of the room.
#![tactic(auto)]

ghost use Rattle.std.specs.Prelude.{◌≡◌, true, ◌≤◌, ◌+◌, length};
ghost use Rattle.locks.specs.Reading.{are_some, tests_read, actions_read, tests_text, actions_text};
ghost use Rattle.locks.specs.Answers.{PutOver, framed, Writable, Locked};

use lock_pieces::{put, put_quoted, put_test};
use lock_reader::actions::{ACTIONS, action_at};
use lock_reader::permit_size;
use lock_reader::tests::{TESTS, test_at};

// A lock that is refused: not of the form, or its permit is longer than its room.
const NO_LOCK: u8 = 28;

const NO_ROOM: u8 = 29;

// The tests of a lock, joined by `&&`.
fn put_tests(vocabulary: &[u8], lock: &[u8], room: &mut [u8], at: usize) -> usize
    requires tests_value { are_some (tests_read vocabulary.now lock.now) ≡ true }
    requires lock_in_bounds { at + length (tests_text vocabulary.now lock.now) ≤ length room.old }
    ensures { PutOver room.old at (tests_text vocabulary.now lock.now) room.new result }
{
    let mut next = 0;
    let mut end = at;
    for _ in 0..TESTS {
        let t = test_at(vocabulary, lock, next);
        let path = t.path;
        let stop = t.stop;
        let value = t.value;
        let value_end = t.end;
        end = put_test(
            room,
            end,
            t.sort,
            t.mark,
            &vocabulary[path..stop],
            &lock[value..value_end],
        );
        if t.next == lock.len() {
            return end;
        }
        next = t.next + 1;
        end = put(room, end, b" && ");
    }
    end
}

// The strings of an action list, with commas.
fn put_actions(actions: &[u8], room: &mut [u8], at: usize) -> usize
    requires actions_value { are_some (actions_read actions.now) ≡ true }
    requires actions_in_bounds { at + length (actions_text actions.now) ≤ length room.old }
    ensures { PutOver room.old at (actions_text actions.now) room.new result }
{
    let mut next = 0;
    let mut end = at;
    for _ in 0..ACTIONS {
        let Some(p) = action_at(actions, next) else {
            return end;
        };
        end = put_quoted(room, end, &actions[p.start..p.end]);
        if p.end == actions.len() {
            return end;
        }
        next = p.end;
        end = put(room, end, b", ");
    }
    end
}

// The permit, over the start of the room.
fn put_permit(
    vocabulary: &[u8],
    lock: &[u8],
    actions: &[u8],
    resource: &[u8],
    room: &mut [u8],
) -> usize
    requires writable { Writable vocabulary.now lock.now actions.now resource.now room.old }
    ensures { PutOver room.old 0 (framed (actions_text actions.now) resource.now
        (tests_text vocabulary.now lock.now)) room.new result }
{
    let a = put(room, 0, b"permit(principal, action in [");
    let b = put_actions(actions, room, a);
    let c = put(room, b, b"], resource == ");
    let d = put_quoted(room, c, resource);
    let e = put(room, d, b") when { ");
    let f = put_tests(vocabulary, lock, room, e);
    put(room, f, b" };")
}

// Writes the permit over the start of the room. A refusal changes nothing.
pub fn lock(
    vocabulary: &[u8],
    lock: &[u8],
    actions: &[u8],
    resource: &[u8],
    room: &mut [u8],
) -> Result<usize, u8>
    ensures { Locked vocabulary.now lock.now actions.now resource.now
        room.old result room.new }
{
    match permit_size(vocabulary, lock, actions, resource) {
        None => Err(NO_LOCK),
        Some(size) => {
            if room.len() < size {
                return Err(NO_ROOM);
            }
            put_permit(vocabulary, lock, actions, resource, room);
            Ok(size)
        }
    }
}
