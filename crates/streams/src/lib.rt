// What the programs share that read and print bytes. A read that fails is the end of the input, and a write that fails is passed over.
#![tactic(auto)]

ghost use Rattle.streams.specs.Counts.{IsPrefixLen};

use std::io::Read;

// Reads until buf is full, the input ends or a read fails, and gives how many bytes came into the beginning of buf.
pub fn read_full<R: Read>(input: &mut R, buf: &mut [u8]) -> usize
    ensures { IsPrefixLen result buf.new }
{
    let mut done = 0;
    // a `for` would be no plainer: each read says how far it came
    while done < buf.len() {
        let n = read_some(input, &mut buf[done..]);
        if n == 0 {
            break;
        }
        done += n;
    }
    done
}

// One read; 0 bytes where it fails.
fn read_some<R: Read>(input: &mut R, buf: &mut [u8]) -> usize
    ensures { IsPrefixLen result buf.new }
{
    input.read(buf).unwrap_or(0)
}

// Writes all of the bytes to the standard output.
pub fn print_bytes<P: Print>(rt: &P, bytes: &[u8]) {
    let _ = rt.write_all(bytes);
}
