// What the programs share that are run in a folder: the bytes of its files, and the lines that they print, put into a lent buffer byte for byte.
#![tactic(auto)]

pub mod lines;

ghost use Rattle.streams.specs.Counts.{IsPrefixLen};

use crate::lines::put_refusal;
use std::fs;
use std::rt::Files;
use streams::{print_bytes, read_full};

// Reads a file from its beginning, as much as fits, and gives how many bytes came. A missing file is empty.
pub fn read_file<R: Files>(rt: &R, name: &[u8], buf: &mut [u8]) -> usize
    ensures { IsPrefixLen result buf.new }
{
    match str::from_utf8(name) {
        Ok(path) => read_path(rt, path, buf),
        Err(_) => 0,
    }
}

fn read_path<R: Files>(rt: &R, path: &str, buf: &mut [u8]) -> usize
    ensures { IsPrefixLen result buf.new }
{
    match fs::open(rt, path) {
        Ok(mut file) => read_full(&mut file, buf),
        Err(_) => 0,
    }
}

// Prints the line of a refusal; line, column and length are 0 where it has no place.
pub fn print_refusal<P: Print>(rt: &P, number: u32, line: usize, column: usize, size: usize) {
    let mut out = [0u8; 92];
    let n = put_refusal(&mut out, 0, number, line, column, size);
    print_bytes(rt, &out[..n]);
}
