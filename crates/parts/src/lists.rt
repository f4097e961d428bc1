// Literals, and lists of them.
ghost use Rattle.std.specs.Prelude.{◌≡◌, []};
ghost use Rattle.tokens.specs.Tokens.{Reads};
ghost use Rattle.reading.specs.Lexemes.{lexeme};
ghost use Rattle.grammar.specs.Rules.{is_literal, is_text, literal_of};
ghost use Rattle.grammar.specs.Parser.{is_text_of, no_text, read_list};
ghost use Rattle.table.specs.Entries.{literal_entry, literal_entries};
ghost use Rattle.parts.specs.Answers.{ReadyToRead, Done};
ghost use Rattle.parts.specs.Names.{sort_of};

use crate::answers::Reader;
use crate::refusals;
use table::{Entry, entries};
use tokens::kinds;
use tokens::reader::Token;
use tokens::sizes::MOST_LITERALS;
use utf8::{is_ascii, is_utf8};

// Whether a token is a literal.
pub fn is_literal(t: Token) -> bool
    ensures { result ≡ is_literal (lexeme [] t) }
{
    matches!(
        t.kind,
        kinds::STRING | kinds::NUMBER | kinds::TRUE | kinds::FALSE
    )
}

// Whether what a string has between its quotes is UTF-8; any other token passes. Most strings are ASCII, which is asked with fewer instructions.
pub fn is_text(text: &[u8], t: Token) -> bool
    requires { Reads text.now 0 t }
    ensures { result ≡ is_text (lexeme text.now t) }
{
    if t.kind != kinds::STRING {
        return true;
    }
    if t.end - t.start <= 2 {
        return true;
    }
    let start = t.start + 1;
    let end = t.end - 1;
    if is_ascii(&text[start..end]) {
        return true;
    }
    is_utf8(&text[start..end])
}

// Whether a token is a literal, and UTF-8 where it is a string.
pub fn is_text_literal(text: &[u8], t: Token) -> bool
    requires { Reads text.now 0 t }
    ensures { result ≡ is_text_of is_literal (lexeme text.now t) }
{
    is_literal(t) && is_text(text, t)
}

// The number by which a token is refused where a string may stand.
pub fn no_text(t: Token) -> u8
    ensures { result ≡ no_text (lexeme [] t) }
{
    if t.kind == kinds::STRING {
        refusals::NOT_UTF8
    } else {
        refusals::NOT_ADMITTED
    }
}

// The entry of a literal.
pub fn literal_entry(t: Token) -> Entry
    ensures { result ≡ literal_entry (literal_of (lexeme [] t)) }
{
    match t.kind {
        kinds::STRING => Entry {
            kind: entries::STRING,
            first: t.start,
            second: t.end,
        },
        kinds::NUMBER => Entry {
            kind: entries::NUMBER,
            first: t.start,
            second: t.end,
        },
        kinds::TRUE => Entry {
            kind: entries::TRUE,
            first: 0,
            second: 0,
        },
        _ => Entry {
            kind: entries::FALSE,
            first: 0,
            second: 0,
        },
    }
}

// Whether a token may stand in a list, which may be one of strings only.
fn is_sort(strings: bool, t: Token) -> bool
    ensures { result ≡ sort_of strings (lexeme [] t) }
{
    if strings {
        t.kind == kinds::STRING
    } else {
        is_literal(t)
    }
}

// A list after its `[`: 1 to 16 literals with commas between them, and `]`.
pub fn read_list(reader: &mut Reader, strings: bool) -> Result<(), u8>
    requires { ReadyToRead reader.old.text.now reader.old.free reader.old.next }
    ensures { Done (λ e. literal_entries) (read_list (sort_of strings)) reader.old reader.new result }
{
    let first = reader.free;
    loop {
        let t = reader.next;
        if !is_sort(strings, t) {
            return Err(refusals::NOT_ADMITTED);
        }
        if MOST_LITERALS <= reader.free - first {
            return Err(refusals::TOO_MANY_LITERALS);
        }
        if !is_text(reader.text, t) {
            return Err(refusals::NOT_UTF8);
        }
        reader.pass();
        reader.put_entry(literal_entry(t));
        if reader.next.kind != b',' {
            return reader.expect(b']');
        }
        reader.pass();
    }
}
