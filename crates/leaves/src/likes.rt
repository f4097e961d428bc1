// The patterns that `like` admits.
ghost use Rattle.std.specs.Prelude.{◌≡◌, true, length, ltb};
ghost use Rattle.utf8.specs.Reading.{utf8, points};
ghost use Rattle.tokens.specs.Sizes.{most_pattern_characters};
ghost use Rattle.tokens.specs.Tokens.{Reads};
ghost use Rattle.reading.specs.Lexemes.{lexeme};
ghost use Rattle.grammar.specs.Rules.{is_pattern, inside};

use tokens::reader::Token;
use tokens::sizes::{MOST_PATTERN_CHARACTERS, MOST_WILDCARDS};

// Whether a string has too many characters for a pattern between its quotes: none has more than bytes.
fn is_long(text: &[u8], t: Token) -> bool
    requires { Reads text.now 0 t × (utf8 (inside (lexeme text.now t)) ≡ true) }
    ensures { result ≡ ltb most_pattern_characters (length (points (inside (lexeme text.now t)))) }
{
    if t.end - t.start <= MOST_PATTERN_CHARACTERS + 2 {
        return false;
    }
    let mut characters = 0;
    for &b in &text[t.start + 1..t.end - 1] {
        characters += !((0x80 <= b) & (b <= 0xBF)) as usize;
    }
    MOST_PATTERN_CHARACTERS < characters
}

// Whether what a string of UTF-8 has between its quotes is a pattern: at most 100 characters and 5 wildcards, without `[`, `{` and `**`.
pub fn is_pattern(text: &[u8], t: Token) -> bool
    requires { Reads text.now 0 t × (utf8 (inside (lexeme text.now t)) ≡ true) }
    ensures { result ≡ is_pattern (inside (lexeme text.now t)) }
{
    if is_long(text, t) {
        return false;
    }
    if t.end - t.start <= 2 {
        return true;
    }
    let mut wildcards = 0;
    let mut star = false;
    for &b in &text[t.start + 1..t.end - 1] {
        let again = b == b'*';
        if (b == b'[') | (b == b'{') | (star & again) {
            return false;
        }
        wildcards += (again | (b == b'?')) as usize;
        star = again;
    }
    wildcards <= MOST_WILDCARDS
}
