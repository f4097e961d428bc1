// The longest run of bytes of one sort from a place on.
ghost use Rattle.std.specs.Prelude.{◌≡◌, ◌≤◌, length};
ghost use Rattle.tokens.specs.Runs.{RunsTo};

use crate::classes::{Sort, is_of};

// The place of the first byte from `at` on that is not of the sort, or the text's end.
pub fn run_end(text: &[u8], at: usize, sort: Sort) -> usize
    requires { at ≤ length text.now }
    ensures { RunsTo sort text.now at result }
{
    for i in at..text.len() {
        if !is_of(sort, text[i]) {
            return i;
        }
    }
    text.len()
}

// The same place, for runs that are mostly longer: four bytes at a time. A loop over single bytes is slower: one test of the end for each byte, not for four.
pub fn long_run_end(text: &[u8], at: usize, sort: Sort) -> usize
    requires { at ≤ length text.now }
    ensures { RunsTo sort text.now at result }
{
    let mut i = at;
    while i + 4 <= text.len() {
        if !is_of(sort, text[i]) {
            return i;
        }
        if !is_of(sort, text[i + 1]) {
            return i + 1;
        }
        if !is_of(sort, text[i + 2]) {
            return i + 2;
        }
        if !is_of(sort, text[i + 3]) {
            return i + 3;
        }
        i += 4;
    }
    run_end(text, i, sort)
}
