// The tests of a lock, met one after the other: `test_at` finds each, for the measuring and for the writing.
ghost use Rattle.std.specs.Prelude.{◌≡◌, ◌≤◌, ◌+◌, length};
ghost use Rattle.permits.specs.Permits.{test_text};
ghost use Rattle.locks.specs.Reading.{no_test, goes_with, value_behind, number_behind, operand_at, ends_test, PieceIs, test_at, TestIs, test_size, tests_read, between_tests, size_with, SizeIs};

use crate::vocabulary::find;
use locks::Piece;
use locks::tests::TestPlaces;
use locks::vocabulary::{EQUALITY, MEMBERSHIP, NUMBER};
use token_reader::next_token;
use tokens::classes::Sort;
use tokens::kinds;
use tokens::runs::run_end;

// The most tests of a lock.
pub const TESTS: usize = 16;

fn no_test() -> TestPlaces
    ensures { result ≡ no_test }
{
    TestPlaces {
        sort: 0,
        path: 0,
        stop: 0,
        mark: 0,
        value: 0,
        end: 0,
        next: 0,
    }
}

// Whether a mark goes with a word's sort: `:` with equality and membership, `>`, `>=`, `<` and `<=` with numbers.
#[tactic(auto, unfolding(locks::specs::Reading::goes_with))]
fn goes_with(sort: u8, mark: u8) -> bool
    ensures { result ≡ goes_with sort mark }
{
    match sort {
        EQUALITY | MEMBERSHIP => mark == kinds::COLON,
        NUMBER => {
            mark == b'>' || mark == kinds::AT_LEAST || mark == b'<' || mark == kinds::AT_MOST
        }
        _ => false,
    }
}

// The value at a place, behind blanks: letters, digits, `_` and `-`.
fn value_at(lock: &[u8], at: usize) -> Option<Piece>
    requires { at ≤ length lock.now }
    ensures { PieceIs lock.now at result (value_behind lock.now at) }
{
    let start = run_end(lock, at, Sort::Blanks);
    let end = run_end(lock, start, Sort::WordBytes);
    if start < end {
        Some(Piece { start, end })
    } else {
        None
    }
}

// The number at a place, behind blanks.
fn number_at(lock: &[u8], at: usize) -> Option<Piece>
    requires { at ≤ length lock.now }
    ensures { PieceIs lock.now at result (number_behind lock.now at) }
{
    let t = next_token(lock, at);
    if t.kind == kinds::NUMBER {
        Some(Piece {
            start: t.start,
            end: t.end,
        })
    } else {
        None
    }
}

// What stands behind a mark: a value behind `:`, a number behind the others.
fn operand_at(lock: &[u8], mark: u8, at: usize) -> Option<Piece>
    requires { at ≤ length lock.now }
    ensures { PieceIs lock.now at result (operand_at lock.now mark at) }
{
    if mark == kinds::COLON {
        value_at(lock, at)
    } else {
        number_at(lock, at)
    }
}

// Whether a lock ends at a place, or a `&` stands there.
#[tactic(auto, unfolding(locks::specs::Reading::ends_test))]
fn goes_on(lock: &[u8], at: usize) -> bool
    ensures { result ≡ ends_test lock.now at }
{
    lock.len() <= at || lock[at] == b'&'
}

// The test at a place, with the blanks before and behind it.
pub fn test_at(vocabulary: &[u8], lock: &[u8], at: usize) -> TestPlaces
    requires { at ≤ length lock.now }
    ensures { TestIs vocabulary.now lock.now result (test_at vocabulary.now lock.now at) }
{
    let word = run_end(lock, at, Sort::Blanks);
    let word_end = run_end(lock, word, Sort::WordBytes);
    let e = find(vocabulary, 0, &lock[word..word_end]);
    let m = next_token(lock, word_end);
    let Some(o) = operand_at(lock, m.kind, m.end) else {
        return no_test();
    };
    let next = run_end(lock, o.end, Sort::Blanks);
    let small = o.end - o.start <= 127;
    if small & goes_with(e.sort, m.kind) & goes_on(lock, next) {
        TestPlaces {
            sort: e.sort,
            path: e.path,
            stop: e.end,
            mark: m.kind,
            value: o.start,
            end: o.end,
            next,
        }
    } else {
        no_test()
    }
}

// How many bytes a test has in a permit.
#[tactic(auto, unfolding(locks::specs::Reading::test_size))]
fn test_size(t: TestPlaces) -> usize
    requires { (t.path ≤ t.stop) × (t.stop ≤ t.path + 255) × (t.value ≤ t.end) × (t.end ≤ t.value + 127) }
    ensures { (result ≡ test_size t) × (result ≤ 398) }
{
    let bytes = (t.stop - t.path) + (t.end - t.value);
    if t.sort == EQUALITY || t.sort == MEMBERSHIP {
        bytes + 16
    } else if t.mark == b'>' || t.mark == b'<' {
        bytes + 13
    } else {
        bytes + 14
    }
}

// How many bytes all tests have in a permit, with four between two.
pub fn tests_size(vocabulary: &[u8], lock: &[u8]) -> Option<usize>
    ensures { SizeIs result (size_with 0 between_tests test_text (tests_read vocabulary.now lock.now)) 6432 }
{
    let mut at = 0;
    let mut size = 0;
    for _ in 0..TESTS {
        let t = test_at(vocabulary, lock, at);
        if t.sort == 0 {
            return None;
        }
        let sum = size + test_size(t);
        if t.next == lock.len() {
            return Some(sum);
        }
        at = t.next + 1;
        size = sum + 4;
    }
    None
}
