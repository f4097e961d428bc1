// Looks attributes up in rows of test questions, and writes a line for each: 24 where the bytes are no question, else the kind and the number's bits, and for a
// string or a list the sum of its bytes. Choices that are none of their columns' candidates get a minus.
#![tactic(auto)]

ghost use Rattle.std.specs.Prelude.{true, [], ◌≡◌, ℕ, ◌<◌, ◌≤◌, T, length, get_or};
ghost use Rattle.std.specs.Float.Ieee.Scale.{finite};
ghost use Rattle.lookups.specs.Values.{ValueWhole};
ghost use Rattle.questions.specs.Questions.{Question};
ghost use Rattle.questions.specs.Sizes.{most_question_bytes};

use bags::sections::Sections;
use bags::values::{LIST, STRING};
use lookups::steps::value_next;
use lookups::values::{Value, value_at};
use questions::grid::{heads, places};
use questions::question_sections;
use slots::index_of;
use std::io::Read;
use vectors::{read_part, sum_of, vector_count};
use views::{attribute, chosen, with_columns};

// A value's line.
fn report<P: Print>(rt: &P, s: &[u8], v: Value)
    requires { T (finite v.number) × ValueWhole s.now v }
{
    let kind = v.kind;
    let place = v.place;
    let _ = print!(rt; "{kind} {:016x}", v.number.to_bits());
    if kind == STRING || kind == LIST {
        let end = value_next(kind, s, place);
        let _ = print!(rt; " {}", sum_of(&s[place..end]));
    }
    let _ = println!(rt);
}

// Whether each choice is a candidate of its column: past the last of them the places are 0.
fn are_candidates(grid: [[usize; 8]; 6], n: usize, choices: &[u8; 6]) -> bool
    requires { n ≤ 6 }
    ensures { result ≡ true → (i : ℕ) → i < n → (get_or choices.now i 0 < 8) × (0 < get_or (get_or grid i []) (get_or choices.now i 0) 0) }
{
    for i in 0..n {
        let choice = usize::from(choices[i]);
        if 8 <= choice || grid[i][choice] == 0 {
            return false;
        }
    }
    true
}

// The attribute in the row of these choices.
fn row<P: Print>(rt: &P, s: &[u8], p: Sections, choices: &[u8; 6], root: u8, path: &[u8])
    requires { Question s.now p × (length s.now ≤ most_question_bytes) }
{
    let at = p.end;
    let n = s[at] as usize;
    let first = at + 1;
    let grid = places(s, first, n);
    if are_candidates(grid, n, choices) {
        let starts = heads(s, first, n);
        let values = chosen(grid, n, choices);
        let base = index_of(s, p);
        let found = with_columns(base, n, &starts);
        let k = attribute(s, &found, &values, root, path);
        report(rt, s, value_at(s, k));
    } else {
        let _ = println!(rt; "-");
    }
}

fn answer<P: Print>(rt: &P, s: &[u8], choices: &[u8; 6], root: u8, path: &[u8]) {
    match question_sections(s) {
        Some(p) => row(rt, s, p, choices, root, path),
        None => {
            let _ = println!(rt; "24");
        }
    }
}

// One vector: a question, the choices of six columns, a root byte and a path.
fn vector<P: Print, R: Read>(rt: &P, input: &mut R) {
    let mut question = [0u8; 8192];
    let mut choices = [0u8; 6];
    let mut root = [0u8; 1];
    let mut path = [0u8; 256];
    let q = read_part(input, &mut question);
    read_part(input, &mut choices);
    read_part(input, &mut root);
    let p = read_part(input, &mut path);
    answer(rt, &question[..q], &choices, root[0], &path[..p]);
}

fn main(rt: HostRuntime) {
    let mut input = rt.reader();
    for _ in 0..vector_count(&mut input) {
        vector(&rt, &mut input);
    }
}
