// Reserved words: the kind of a word, and whether it is reserved; and the one that stands at a place of a text.
#![tactic(auto)]

pub mod standing;

ghost use Rattle.std.specs.Prelude.{◌≡◌, ◌<◌, length};
ghost use Rattle.slices.specs.Same.{same};
ghost use Rattle.tokens.specs.Words.{word_kind, is_reserved_word};

use tokens::kinds;

// Whether a word of as many bytes is this one: by the first byte, in which most words differ; then by `starts_with`, so that the compiler knows how many bytes there are to compare,
// and needs no call.
fn is<const N: usize>(word: &[u8], bytes: &[u8; N]) -> bool
    requires word_length { length word.now ≡ N }
    requires some { 0 < N }
    ensures { result ≡ same word.now bytes.now }
{
    word[0] == bytes[0] && word.starts_with(bytes)
}

// A word's kind: that of a reserved word, or a name's. Only the reserved words of its length are compared with it.
// Always inlined: the token reader calls it once, and bags only ask whether a word is reserved.
#[inline(always)]
pub fn word_kind(word: &[u8]) -> u8
    ensures { result ≡ word_kind word.now }
{
    match word.len() {
        2 if is(word, b"is") => kinds::IS,
        2 if is(word, b"in") => kinds::IN,
        2 if is(word, b"if") => kinds::IF,
        3 if is(word, b"env") => kinds::ENV,
        3 if is(word, b"has") => kinds::HAS,
        4 if is(word, b"when") => kinds::WHEN,
        4 if is(word, b"like") => kinds::LIKE,
        4 if is(word, b"true") => kinds::TRUE,
        4 if is(word, b"then") => kinds::THEN,
        4 if is(word, b"else") => kinds::ELSE,
        5 if is(word, b"false") => kinds::FALSE,
        6 if is(word, b"permit") => kinds::PERMIT,
        6 if is(word, b"forbid") => kinds::FORBID,
        6 if is(word, b"action") => kinds::ACTION,
        8 if is(word, b"resource") => kinds::RESOURCE,
        9 if is(word, b"principal") => kinds::PRINCIPAL,
        11 if is(word, b"containsAll") => kinds::CONTAINS_ALL,
        11 if is(word, b"containsAny") => kinds::CONTAINS_ANY,
        _ => kinds::NAME,
    }
}

// Whether a word is reserved: as its kind says.
pub fn is_reserved(word: &[u8]) -> bool
    ensures { result ≡ is_reserved_word word.now }
{
    word_kind(word) != kinds::NAME
}
