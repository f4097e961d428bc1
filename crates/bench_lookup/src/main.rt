// Looks one attribute up again and again, so that the instructions can be counted. The input: how often, in 4 bytes, and as parts the bag, the root byte and the path.
#![tactic(auto)]

ghost use Rattle.std.specs.Prelude.{length, ◌<◌, ◌≤◌};

use lookups::lookup;
use lookups::values::Value;
use vectors::{read_part, stamp, vector_count};

// A number for each answer, of its kind, place and number.
fn told(answer: Result<Value, u8>) -> u64
    ensures { result < 1000003 }
{
    match answer {
        Err(number) => u64::from(number),
        Ok(v) => u64::from(v.kind) + (v.place % 1000) as u64 + u64::from(v.number < 8.0),
    }
}

// The bag is the first `size` bytes; the last one is past it.
fn look_up_once(bytes: &mut [u8], size: usize, root: u8, path: &[u8], sum: u64) -> u64
    requires { (size ≤ length bytes.old) × (sum < 1000003) }
    ensures { result < 1000003 }
{
    stamp(bytes, sum);
    let answer = lookup(&bytes[..size], root, path);
    (sum + told(answer)) % 1000003
}

fn look_up_often(times: u32, bytes: &mut [u8], size: usize, root: u8, path: &[u8]) -> u64
    requires { size ≤ length bytes.old }
{
    let mut sum: u64 = 0;
    for _ in 0..times {
        sum = look_up_once(bytes, size, root, path, sum);
    }
    sum
}

fn main(rt: HostRuntime) {
    let mut input = rt.reader();
    let mut bytes = [0u8; 8192];
    let mut root = [0u8; 1];
    let mut path = [0u8; 101];
    let times = vector_count(&mut input);
    let n = read_part(&mut input, &mut bytes);
    read_part(&mut input, &mut root);
    let p = read_part(&mut input, &mut path);
    let sum = look_up_often(times, &mut bytes, n, root[0], &path[..p]);
    let _ = println!(rt; "{sum}");
}
