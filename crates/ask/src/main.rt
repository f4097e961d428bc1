// The ask program, run in a folder with a word, and a version as a second, 1 where there is none. `check`: whether policy.txt compiles. `decide`: what the desk answers to
// each case of cases.bin. `tally`: what it counts over question.bin for the requests of requests.bin. `sheet`: what the sheet program prints, under this version. All it says
// is what the desk's calls say.
#![tactic(auto)]

ghost use Rattle.std.specs.Prelude.{true, ◌≡◌, ◌+◌, ◌≤◌, ◌<◌, length, take};
ghost use Rattle.desk.specs.Answers.{compile_says, begins_says, tally_says};
ghost use Rattle.folder.specs.Added.{Added};
ghost use Rattle.streams.specs.Counts.{IsPrefixLen};
ghost use Rattle.ask.specs.Lines.{version_in, compiled_line, decided_line, cases_from, answered_for, CaseAnswered, CasesAnswered, counted_for};

use cases::part_at;
use counts::put_tally;
use desk::{DeskCompiled, DeskDecision};
use folder::lines::{put_numbers, put_refusal};
use folder::{print_refusal, read_file};
use printing::print_folder;
use std::env::{Env, FillError};
use std::rt::Files;
use streams::print_bytes;

// Where the next case begins, and how many bytes of the buffer are filled. A buffer that grows would be no plainer: it takes an allocator, and each line could fail.
#[derive(Clone, Copy)]
pub struct CaseStep {
    pub next: usize,
    pub filled: usize,
}

// The line for what compiling answers.
fn put_compiled(out: &mut [u8], at: usize, c: DeskCompiled) -> usize
    requires { at + 92 ≤ length out.old }
    ensures { Added out.old at (compiled_line c) out.new result × (result ≤ at + 92) }
{
    if 0 < c.refusal {
        return put_refusal(out, at, c.refusal, c.line, c.column, c.length);
    }
    put_numbers(out, at, b"compiled ", &[c.policies, c.bytes])
}

// The line for what deciding answers.
fn put_decided(out: &mut [u8], at: usize, d: DeskDecision) -> usize
    requires { at + 92 ≤ length out.old }
    ensures { Added out.old at (decided_line d) out.new result × (result ≤ at + 92) }
{
    if 0 < d.refusal {
        return put_refusal(out, at, d.refusal, 0, 0, 0);
    }
    put_numbers(
        out,
        at,
        b"decided ",
        &[d.outcome as usize, d.policy, d.mark as usize],
    )
}

// Answers the case at a place, with its line behind those that the buffer holds.
fn answer_case<'a>(
    text: &'a [u8],
    table: &[u8],
    cases: &'a [u8],
    at: usize,
    out: &mut [u8],
    filled: usize,
) -> CaseStep
    requires { (at < length cases.now) × (filled + 92 ≤ length out.old) }
    ensures { CaseAnswered text.now table.now cases.now at out.old filled out.new result }
{
    let subject = part_at(cases, at);
    let action = part_at(cases, subject.end);
    let resource = part_at(cases, action.end);
    let bag = part_at(cases, resource.end);
    let answer = desk::desk_decide(
        text,
        table,
        &cases[bag.start..bag.end],
        &cases[subject.start..subject.end],
        &cases[action.start..action.end],
        &cases[resource.start..resource.end],
    );
    let line = put_decided(out, filled, answer);
    CaseStep {
        next: bag.end,
        filled: line,
    }
}

// How many cases are answered, and how far.
#[derive(Clone, Copy)]
pub struct Answered {
    pub cases: usize,
    pub step: CaseStep,
}

// Answers cases from a place on, as many as the buffer has room for.
fn answer_cases<'a>(
    text: &'a [u8],
    table: &[u8],
    cases: &'a [u8],
    at: usize,
    out: &mut [u8],
) -> Answered
    requires { (at < length cases.now) × (92 ≤ length out.old) }
    ensures { CasesAnswered text.now table.now cases.now at out.new result.cases result.step
        × (at < result.step.next) }
{
    let mut next = at;
    let mut filled = 0;
    let mut answered = 0;
    // a `for` would be no plainer: each case says where the next begins
    while next < cases.len() {
        if out.len() - filled < 92 {
            return Answered {
                cases: answered,
                step: CaseStep { next, filled },
            };
        }
        let step = answer_case(text, table, cases, next, out, filled);
        next = step.next;
        filled = step.filled;
        answered += 1;
    }
    Answered {
        cases: answered,
        step: CaseStep { next, filled },
    }
}

// Answers all cases, a buffer of lines at a time, and gives how many there are.
fn print_cases<'a, P: Print>(rt: &P, text: &'a [u8], table: &[u8], cases: &'a [u8]) -> usize
    requires { begins_says text.now table.now ≡ true }
    ensures { result ≡ cases_from cases.now 0 }
{
    let mut out = [0u8; 65536];
    let mut next = 0;
    let mut answered = 0;
    // a `for` would be no plainer: how far some cases go is their answer
    while next < cases.len() {
        let some = answer_cases(text, table, cases, next, &mut out);
        let filled = some.step.filled;
        print_bytes(rt, &out[..filled]);
        next = some.step.next;
        answered += some.cases;
    }
    answered
}

// Prints the line for what compiling answers.
fn print_compiled<P: Print>(rt: &P, c: DeskCompiled) {
    let mut out = [0u8; 92];
    let n = put_compiled(&mut out, 0, c);
    print_bytes(rt, &out[..n]);
}

// What is printed for a text and cases: how many cases are answered; or only the text's refusal.
fn print_answers<'a, P: Print>(
    rt: &P,
    version: u64,
    text: &'a [u8],
    table: &mut [u8],
    cases: &'a [u8],
) -> usize
    ensures { result ≡ answered_for version text.now table.old cases.now }
{
    let c = desk::desk_compile(text, table, version);
    if 0 < c.refusal {
        print_compiled(rt, c);
        return 0;
    }
    print_cases(rt, text, table, cases)
}

// Prints the lines of a tally.
fn print_counts<P: Print>(rt: &P, counts: &[u32; 612], rows: usize, many: usize, policies: usize)
    requires { (many ≤ 8) × (policies ≤ 64) }
{
    let mut out = [0u8; 30863]; // 50 bytes for each of nine groups of 68 counts, and the lines of rows, requests and sums
    let n = put_tally(&mut out, counts, rows, many, policies);
    print_bytes(rt, &out[..n]);
}

// Prints the tally of so many requests over rules with so many policies, or its refusal, and gives the refusal's number.
fn print_tally<'a, P: Print>(
    rt: &P,
    text: &'a [u8],
    table: &[u8],
    policies: usize,
    question: &'a [u8],
    many: usize,
    requests: &'a [u8],
) -> u32
    requires { policies ≤ 64 }
    ensures { result ≡ tally_says text.now table.now question.now many requests.now }
{
    let mut counts = [0u32; 612];
    let refusal = desk::desk_tally(text, table, question, many, requests, &mut counts);
    if 0 < refusal {
        print_refusal(rt, refusal, 0, 0, 0);
        return refusal;
    }
    print_counts(rt, &counts, desk::desk_rows(question), many, policies);
    0
}

// What is printed for a text, a question and requests, which stand behind their number in one byte: the tally; or the refusal's line. Gives the refusal's number.
fn print_counted<'a, P: Print>(
    rt: &P,
    version: u64,
    text: &'a [u8],
    table: &mut [u8],
    question: &'a [u8],
    requests: &'a [u8],
) -> u32
    ensures { result ≡ counted_for version text.now table.old question.now requests.now }
{
    let c = desk::desk_compile(text, table, version);
    if 0 < c.refusal {
        print_compiled(rt, c);
        return c.refusal;
    }
    let n = requests.len();
    if n < 1 {
        return print_tally(rt, text, table, c.policies, question, 0, requests);
    }
    print_tally(
        rt,
        text,
        table,
        c.policies,
        question,
        usize::from(requests[0]),
        &requests[1..n],
    )
}

// A file is read with room for one byte more than its limit, so that what is too long is refused and not cut.
fn check<R: Files + Print>(rt: &R, version: u64) {
    let mut text = [0u8; 8193];
    let mut table = [0u8; 65544];
    let n = read_file(rt, b"policy.txt", &mut text);
    print_compiled(rt, desk::desk_compile(&text[..n], &mut table, version));
}

// Cases are read as a whole, up to 131,072 bytes; of more none is answered.
fn decide<R: Files + Print>(rt: &R, version: u64) {
    let mut text = [0u8; 8193];
    let mut table = [0u8; 65544];
    let mut cases = [0u8; 131073];
    let n = read_file(rt, b"policy.txt", &mut text);
    let m = read_file(rt, b"cases.bin", &mut cases);
    if 131072 < m {
        print_bytes(rt, b"cases too long\n");
        return;
    }
    print_answers(rt, version, &text[..n], &mut table, &cases[..m]);
}

// Eight requests have 6,145 bytes at most; what lies behind them is not looked at.
fn tally<R: Files + Print>(rt: &R, version: u64) {
    let mut text = [0u8; 8193];
    let mut table = [0u8; 65544];
    let mut question = [0u8; 4097];
    let mut requests = [0u8; 6145];
    let n = read_file(rt, b"policy.txt", &mut text);
    let q = read_file(rt, b"question.bin", &mut question);
    let r = read_file(rt, b"requests.bin", &mut requests);
    print_counted(
        rt,
        version,
        &text[..n],
        &mut table,
        &question[..q],
        &requests[..r],
    );
}

// The number that a word says, 1 or 2; 0, which names no version, for any other word.
#[tactic(auto, unfolding(crate::specs::Lines::version_in))]
fn version_in(word: &[u8]) -> u64
    ensures { result ≡ version_in word.now }
{
    match word {
        b"1" => 1,
        b"2" => 2,
        _ => 0,
    }
}

// The version that the second word names, and 1 where there is none; a word of more bytes comes as none.
fn version_asked<R: Env>(rt: &R) -> u64 {
    if has_no_word(rt, 2) {
        return 1;
    }
    let mut word = [0u8; 1];
    let n = word_at(rt, 2, &mut word);
    version_in(&word[..n])
}

// Reads the word at a place, where the program's own name is at 0, and gives how many bytes came. One that is missing or has more bytes than fit comes as none.
fn word_at<R: Env>(rt: &R, place: usize, word: &mut [u8]) -> usize
    ensures { IsPrefixLen result word.new }
{
    rt.arg(place, word).unwrap_or(0)
}

// Whether there is no word at a place.
fn has_no_word<R: Env>(rt: &R, place: usize) -> bool {
    let mut word = [0u8; 1];
    matches!(rt.arg(place, &mut word), Err(FillError::NotPresent))
}

fn main(rt: HostRuntime) {
    let mut word = [0u8; 8];
    let n = word_at(&rt, 1, &mut word);
    let few = has_no_word(&rt, 3);
    let version = version_asked(&rt);
    match &word[..n] {
        b"check" if few => check(&rt, version),
        b"decide" if few => decide(&rt, version),
        b"tally" if few => tally(&rt, version),
        b"sheet" if few => print_folder(&rt, version),
        _ => print_bytes(&rt, b"usage check decide tally sheet\n"),
    }
}
