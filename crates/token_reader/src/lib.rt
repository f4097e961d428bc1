// The token reader.
#![tactic(auto)]

ghost use Rattle.std.specs.Prelude.{◌≡◌, true, cond, ◌<◌, ◌≤◌, ◌+◌, ◌^◌, leb, get_or, length};
ghost use Rattle.tokens.specs.Kinds.{end_of_text};
ghost use Rattle.tokens.specs.Runs.{is_of};
ghost use Rattle.tokens.specs.Table.{entry_of};
ghost use Rattle.tokens.specs.Tokens.{fraction, token, word_token, string_token, number_token, mark_token, mark_at, stray_byte, token_from, token_at, Reads};
ghost use Rattle.tokens.specs.declared.classes.Sort.TheVariants.{Letters};

use tokens::classes::{BLANK, DIGIT, LETTER, LONE, MARK, Sort, entry_of, is_of};
use tokens::kinds;
use tokens::reader::Token;
use tokens::runs::{long_run_end, run_end};
use tokens::sizes::{MOST_DIGITS, MOST_STRING_BYTES, MOST_WORD_BYTES};
use words::standing::reserved_at;
use words::word_kind;

// The byte at a place, and 0 past the text's end.
fn byte(text: &[u8], at: usize) -> u8
    ensures { result ≡ get_or text.now at 0 }
{
    text.get(at).copied().unwrap_or(0)
}

// What the table has for the byte at a place, and 0 past the text's end: one test of the end, and no look at the table there.
fn entry_at(text: &[u8], at: usize) -> u8
    ensures { result ≡ entry_of (get_or text.now at 0) }
{
    match text.get(at) {
        Some(b) => entry_of(*b),
        None => 0,
    }
}

// The word that starts at `start`, near the text's end: its kind is found by its length.
fn last_word(text: &[u8], start: usize) -> Token
    requires { start < length text.now }
    ensures { result ≡ word_token text.now start }
{
    let end = run_end(text, start, Sort::WordBytes);
    let kind = word_kind(&text[start..end]);
    Token { kind, start, end }.within(end - start, MOST_WORD_BYTES)
}

// The word that starts with the letter at `start`: at most 64 bytes.
fn word(text: &[u8], start: usize) -> Token
    requires { (start < length text.now) × (is_of Letters (get_or text.now start 0) ≡ true) }
    ensures { result ≡ word_token text.now start }
{
    if start + 12 <= text.len() {
        if let Some(found) = reserved_at(text, start) {
            return found;
        }
        let end = long_run_end(text, start + 1, Sort::WordBytes);
        let name = Token {
            kind: kinds::NAME,
            start,
            end,
        };
        return name.within(end - start, MOST_WORD_BYTES);
    }
    last_word(text, start)
}

// The string that starts with the quote at `start`: at most 127 bytes between the quotes.
fn string(text: &[u8], start: usize) -> Token
    requires { start < length text.now }
    ensures { result ≡ string_token text.now start }
{
    let end = long_run_end(text, start + 1, Sort::StringBytes);
    match text.get(end) {
        None => Token {
            kind: kinds::UNENDED,
            start,
            end,
        },
        Some(b'"') => {
            let string = Token {
                kind: kinds::STRING,
                start,
                end: end + 1,
            };
            string.within(end - (start + 1), MOST_STRING_BYTES)
        }
        Some(_) => Token::one_byte(kinds::BAD_BYTE, end),
    }
}

// Whether a point and a digit stand at a place.
fn has_fraction(text: &[u8], whole: usize) -> bool
    requires { whole ≤ length text.now }
    ensures { result ≡ fraction text.now whole }
{
    byte(text, whole) == b'.' && is_of(Sort::Digits, byte(text, whole + 1))
}

// The number whose first digit is at `first`: at most 15 digits, without the point.
fn number(text: &[u8], start: usize, first: usize) -> Token
    requires { first < length text.now }
    ensures { result ≡ number_token text.now start first }
{
    let kind = kinds::NUMBER;
    let whole = run_end(text, first, Sort::Digits);
    if has_fraction(text, whole) {
        let end = run_end(text, whole + 1, Sort::Digits);
        Token { kind, start, end }.within(end - first - 1, MOST_DIGITS)
    } else {
        Token {
            kind,
            start,
            end: whole,
        }
        .within(whole - first, MOST_DIGITS)
    }
}

// A mark of one byte or two, by its first byte and the next.
fn mark_of(start: usize, first: u8, next: u8) -> Token
    requires { start + 2 < 2 ^ 64 }
    ensures { result ≡ mark_token start first next }
{
    let end = start + 2;
    match first {
        b'&' | b'|' | b'=' if next == first => Token {
            kind: first,
            start,
            end,
        },
        b'!' | b'<' | b'>' if next == b'=' => {
            let kind = first + kinds::WITH_EQUALS;
            Token { kind, start, end }
        }
        b'&' | b'|' | b'=' | b'_' => Token::one_byte(kinds::BAD_BYTE, start),
        _ => Token::one_byte(first, start),
    }
}

// What starts with a byte of the class of the marks: a string, a number below 0, or a mark.
fn from_mark(text: &[u8], start: usize) -> Token
    requires { start < length text.now }
    ensures { result ≡ mark_at text.now start }
{
    match text[start] {
        b'"' => string(text, start),
        b'-' if is_of(Sort::Digits, byte(text, start + 1)) => number(text, start, start + 1),
        b'-' => Token::one_byte(kinds::BAD_BYTE, start),
        first => mark_of(start, first, byte(text, start + 1)),
    }
}

// What stands where no token begins: the text's end, a colon, or a byte that may not stand there.
fn no_token(text: &[u8], start: usize) -> Token
    requires { start ≤ length text.now }
    ensures { result ≡ cond (leb (length text.now) start) (token end_of_text start start) (stray_byte start (get_or text.now start 0)) }
{
    match text.get(start) {
        None => Token {
            kind: kinds::END_OF_TEXT,
            start,
            end: start,
        },
        Some(b':') => Token::one_byte(kinds::COLON, start),
        Some(_) => Token::one_byte(kinds::BAD_BYTE, start),
    }
}

// What starts at a place where no blank is, by what the table has for the byte there.
fn token_from(text: &[u8], start: usize, entry: u8) -> Token
    requires { (start ≤ length text.now) × (entry ≡ entry_of (get_or text.now start 0)) }
    ensures { result ≡ token_from text.now start }
{
    if entry & LONE != 0 {
        return Token::one_byte(text[start], start);
    }
    if entry & LETTER != 0 {
        return word(text, start);
    }
    if entry & DIGIT != 0 {
        return number(text, start, start);
    }
    if entry & MARK != 0 {
        return from_mark(text, start);
    }
    no_token(text, start)
}

// The token at or after a place, with the blanks before it passed.
pub fn next_token(text: &[u8], at: usize) -> Token
    requires { at ≤ length text.now }
    ensures is { result ≡ token_at text.now at }
    ensures lies { Reads text.now at result }
{
    // (Not by `run_end`: that would read the table a second time for the byte at which the token starts.)
    let mut start = at;
    let mut entry = entry_at(text, start);
    while entry & BLANK != 0 {
        start += 1;
        entry = entry_at(text, start);
    }
    token_from(text, start, entry)
}
