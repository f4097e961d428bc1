// Writes one lock's permit again and again, so that the instructions can be counted. The input: how often, in 4 bytes, and as parts the vocabulary, the lock, the actions and the resource.
#![tactic(auto)]

ghost use Rattle.std.specs.Prelude.{length, ◌<◌, ◌≤◌};

use locking::lock;
use vectors::{read_part, stamp, vector_count};

// A number for each answer.
fn told(answer: Result<usize, u8>) -> u64
    ensures { result < 1000003 }
{
    match answer {
        Err(number) => u64::from(number),
        Ok(size) => (size % 1000003) as u64,
    }
}

// The lock is the first `size` bytes; the last one is past it.
fn write_once(
    vocabulary: &[u8],
    bytes: &mut [u8],
    size: usize,
    actions: &[u8],
    resource: &[u8],
    room: &mut [u8],
    sum: u64,
) -> u64
    requires { (size ≤ length bytes.old) × (sum < 1000003) }
    ensures { result < 1000003 }
{
    stamp(bytes, sum);
    let answer = lock(vocabulary, &bytes[..size], actions, resource, room);
    (sum + told(answer)) % 1000003
}

fn write_often(
    times: u32,
    vocabulary: &[u8],
    bytes: &mut [u8],
    size: usize,
    actions: &[u8],
    resource: &[u8],
    room: &mut [u8],
) -> u64
    requires { size ≤ length bytes.old }
{
    let mut sum: u64 = 0;
    for _ in 0..times {
        sum = write_once(vocabulary, bytes, size, actions, resource, room, sum);
    }
    sum
}

fn main(rt: HostRuntime) {
    let mut input = rt.reader();
    let mut vocabulary = [0u8; 4096];
    let mut bytes = [0u8; 8192];
    let mut actions = [0u8; 4096];
    let mut resource = [0u8; 128];
    let mut room = [0u8; 8192];
    let times = vector_count(&mut input);
    let v = read_part(&mut input, &mut vocabulary);
    let n = read_part(&mut input, &mut bytes);
    let a = read_part(&mut input, &mut actions);
    let r = read_part(&mut input, &mut resource);
    let sum = write_often(
        times,
        &vocabulary[..v],
        &mut bytes,
        n,
        &actions[..a],
        &resource[..r],
        &mut room,
    );
    let _ = println!(rt; "{sum}");
}
