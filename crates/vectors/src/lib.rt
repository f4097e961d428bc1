// What every program that runs test vectors shares. Standard input has the number of vectors in 4 bytes, and then each part of
// each vector: its length in 2 bytes, and its bytes. Numbers have their low byte first; bytes that the input lacks count as 0.
#![tactic(auto)]

ghost use Rattle.std.specs.Prelude.{◌<◌, ◌≤◌};
ghost use Rattle.streams.specs.Counts.{IsPrefixLen};

use std::io::Read;
use streams::read_full;

// The number of vectors.
pub fn vector_count<R: Read>(input: &mut R) -> u32 {
    let mut bytes = [0u8; 4];
    read_full(input, &mut bytes);
    u32::from_le_bytes(bytes)
}

// Reads the next part into the beginning of buf, and gives how many bytes came. What does not fit is passed over.
pub fn read_part<R: Read>(input: &mut R, buf: &mut [u8]) -> usize
    ensures { IsPrefixLen result buf.new }
{
    let size = part_size(input);
    if buf.len() < size {
        let n = read_full(input, buf);
        pass_over(input, size - buf.len());
        return n;
    }
    read_full(input, &mut buf[..size])
}

// The length of the next part.
fn part_size<R: Read>(input: &mut R) -> usize
    ensures { result < 65536 }
{
    let mut bytes = [0u8; 2];
    read_full(input, &mut bytes);
    usize::from(u16::from_le_bytes(bytes))
}

// Reads n bytes, and keeps none of them.
fn pass_over<R: Read>(input: &mut R, n: usize)
    requires { n < 65536 }
{
    let mut space = [0u8; 65536];
    read_full(input, &mut space[..n]);
}

// A sum with one number more. A line tells a sum where it cannot tell every number.
pub fn with(sum: u64, x: u64) -> u64
    requires { sum < 1000003 }
    ensures { result < 1000003 }
{
    (sum * 31 + x % 1000003) % 1000003
}

// The sum of all the numbers.
pub fn sum_of<T: Copy + Into<u64>>(numbers: &[T]) -> u64
    ensures { result < 1000003 }
{
    let mut sum = 0;
    for x in numbers {
        sum = with(sum, (*x).into());
    }
    sum
}

// Room before it is lent: byte n is n mod 251.
pub fn fill(room: &mut [u8]) {
    for (n, byte) in room.iter_mut().enumerate() {
        *byte = (n % 251) as u8;
    }
}

// A sum goes into the last item of a buffer before each call that is counted, past what is lent to it, so the compiler can neither drop a call nor take one for all.
pub fn stamp<T: From<u8> + Drop>(items: &mut [T], sum: u64) {
    if let Some(last) = items.last_mut() {
        *last = T::from((sum % 256) as u8);
    }
}

// The number in some bytes, the low one first; of more than eight bytes only the first eight count.
pub fn number_in(bytes: &[u8]) -> u64 {
    let mut eight = [0; 8];
    let n = bytes.len().min(8);
    eight[..n].copy_from_slice(&bytes[..n]);
    u64::from_le_bytes(eight)
}
