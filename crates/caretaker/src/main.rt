// The caretaker program, run in a folder: it prints the permit that a lock says, or the refusal. It lends the desk the bytes of vocabulary.bin, lock.txt, actions.bin and resource.txt, and
// room.bin as the room.
#![tactic(auto)]

use folder::{print_refusal, read_file};
use streams::print_bytes;

// Prints the permit that is written into the room, and a line feed; or the refusal.
fn print_permit<P: Print>(
    rt: &P,
    vocabulary: &[u8],
    lock: &[u8],
    actions: &[u8],
    resource: &[u8],
    room: &mut [u8],
) {
    let answer = desk::desk_lock(vocabulary, lock, actions, resource, room);
    if 0 < answer.refusal {
        print_refusal(rt, answer.refusal, 0, 0, 0);
        return;
    }
    if let Some(permit) = room.get(..answer.length) {
        print_bytes(rt, permit);
        print_bytes(rt, b"\n");
    }
}

// A file is read with room for one byte more than a good one can have, so that what is too long is refused and not cut. A lock has no longest: of more than 65,536 bytes none is read.
fn main(rt: HostRuntime) {
    let mut vocabulary = [0u8; 2097];
    let mut lock = [0u8; 65537];
    let mut actions = [0u8; 2049];
    let mut resource = [0u8; 128];
    let mut room = [0u8; 65536];
    let v = read_file(&rt, b"vocabulary.bin", &mut vocabulary);
    let l = read_file(&rt, b"lock.txt", &mut lock);
    let a = read_file(&rt, b"actions.bin", &mut actions);
    let r = read_file(&rt, b"resource.txt", &mut resource);
    let n = read_file(&rt, b"room.bin", &mut room);
    if 65536 < l {
        print_bytes(&rt, b"lock too long\n");
        return;
    }
    print_permit(
        &rt,
        &vocabulary[..v],
        &lock[..l],
        &actions[..a],
        &resource[..r],
        &mut room[..n],
    );
}
