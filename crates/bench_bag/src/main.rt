// Reads and checks one bag again and again, so that its instructions can be counted, and writes how often it was a bag.
// The input is one test vector, with the number of repetitions where the number of vectors stands.
#![tactic(auto)]

ghost use Rattle.std.specs.Prelude.{◌≤◌, length};

use bags::sections::bag_sections;
use vectors::{read_part, stamp, vector_count};

// How often so many checks of the first `size` bytes say that they are a bag. Each is stamped past those.
fn repeat(times: u32, bytes: &mut [u8], size: usize) -> u64
    requires { size ≤ length bytes.old }
{
    let mut sum: u64 = 0;
    for _ in 0..times {
        stamp(bytes, sum);
        sum = sum.wrapping_add(u64::from(bag_sections(&bytes[..size]).is_some()));
    }
    sum
}

fn main(rt: HostRuntime) {
    let mut input = rt.reader();
    let mut bytes = [0u8; 8192];
    let times = vector_count(&mut input);
    let n = read_part(&mut input, &mut bytes);
    let sum = repeat(times, &mut bytes, n);
    let _ = println!(rt; "{sum}");
}
