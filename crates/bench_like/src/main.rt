// Runs `like` again and again on one pattern and one string, so that its instructions can be counted, and writes how often it said yes.
// The input is one test vector, with the number of repetitions where the number of vectors stands. A pattern that is no UTF-8 is not asked for.
#![tactic(auto)]

ghost use Rattle.std.specs.Prelude.{◌≤◌, length};
ghost use Rattle.utf8.specs.Characters.{Utf8};

use vectors::{read_part, stamp, vector_count};

// How often `like` says yes in so many calls on the first `size` bytes of the string. Each is stamped past those.
fn repeat(times: u32, pattern: &[u8], string: &mut [u8], size: usize) -> u64
    requires { (size ≤ length string.old) × Utf8 pattern.now }
{
    let mut sum: u64 = 0;
    for _ in 0..times {
        stamp(string, sum);
        sum = sum.wrapping_add(u64::from(patterns::like(pattern, &string[..size])));
    }
    sum
}

fn main(rt: HostRuntime) {
    let mut input = rt.reader();
    let mut pattern = [0u8; 256];
    let mut string = [0u8; 256];
    let times = vector_count(&mut input);
    let p = read_part(&mut input, &mut pattern);
    let s = read_part(&mut input, &mut string);
    if !utf8::is_utf8(&pattern[..p]) {
        return;
    }
    let sum = repeat(times, &pattern[..p], &mut string, s);
    let _ = println!(rt; "{sum}");
}
