// Paths: names joined by dots.
ghost use Rattle.std.specs.Prelude.{◌≡◌, [], ◌∷◌, ◌≤◌, ◌^◌};
ghost use Rattle.tokens.specs.Tokens.{Reads};
ghost use Rattle.reading.specs.Lexemes.{lexeme};
ghost use Rattle.grammar.specs.Rules.{is_root, admitted};
ghost use Rattle.grammar.specs.Parser.{no_name, read_way, read_path};
ghost use Rattle.grammar.specs.Policies.{root_byte};
ghost use Rattle.table.specs.Entries.{has_kind, placed};
ghost use Rattle.parts.specs.Answers.{ReadyToRead, Done, PathWalks};
ghost use Rattle.parts.specs.Names.{root_from, exit_of, call_of};

use crate::answers::Reader;
use crate::refusals;
use slices::same;
use table::entries;
use tokens::kinds;
use tokens::reader::Token;
use tokens::sizes::MOST_PATH_BYTES;

// Where a path starts and ends, and the kind of the entry of the call that begins after it, if one does.
#[derive(Clone, Copy)]
pub struct Path {
    pub start: usize,
    pub end: usize,
    pub call: Option<u8>,
}

// Whether a token is a root.
pub fn is_root(t: Token) -> bool
    ensures { result ≡ is_root (lexeme [] t) }
{
    (kinds::PRINCIPAL <= t.kind) & (t.kind <= kinds::ENV)
}

// The kind of an attribute's entry, by the kind of its root's token.
pub fn root_kind(root: u8) -> u8
    ensures { result ≡ root_byte (root_from root) }
{
    match root {
        kinds::PRINCIPAL => entries::PRINCIPAL,
        kinds::RESOURCE => entries::RESOURCE,
        kinds::ACTION => entries::ACTION,
        _ => entries::ENV,
    }
}

// The kind of the entry of `has`, by the same.
pub fn has_kind(root: u8) -> u8
    ensures { result ≡ has_kind (root_from root) }
{
    root_kind(root) + entries::ROOTS
}

// The kind of the entry of the call that a word begins; None where the word is none of the two or none may stand there.
fn call_kind(left: bool, word: u8) -> Option<u8>
    ensures { result ≡ call_of left word }
{
    match word {
        kinds::CONTAINS_ALL if left => Some(entries::CONTAINS_ALL),
        kinds::CONTAINS_ANY if left => Some(entries::CONTAINS_ANY),
        _ => None,
    }
}

// The number by which a token is refused that stands for a name.
fn no_name(root: u8, t: Token) -> u8
    ensures { result ≡ no_name (root_from root) (lexeme [] t) }
{
    if t.kind == kinds::NAME {
        if root == kinds::ACTION {
            refusals::NO_ACTION_PATH
        } else {
            refusals::PATH_TOO_LONG
        }
    } else if kinds::PERMIT <= t.kind {
        refusals::RESERVED_WORD
    } else {
        refusals::NOT_ADMITTED
    }
}

// Whether a name may go on a path of which `used` bytes are read: after action only `name` alone, else up to 64 bytes.
fn is_admitted(text: &[u8], root: u8, used: usize, t: Token) -> bool
    requires { (used ≤ 2 ^ 60) × Reads text.now 0 t }
    ensures { result ≡ admitted (root_from root) used (lexeme text.now t) }
{
    if root == kinds::ACTION {
        let start = t.start;
        let end = t.end;
        let name = same(&text[start..end], b"name");
        return (used == 0) & name;
    }
    used + (t.end - t.start) <= MOST_PATH_BYTES
}

// A path. Where it is a left operand, containsAll or containsAny may end it after a dot.
pub fn read_way(reader: &mut Reader, root: u8, left: bool) -> Result<Path, u8>
    requires { ReadyToRead reader.old.text.now 0 reader.old.next }
    ensures { PathWalks (read_way (exit_of left) (root_from root)) reader.old reader.new result }
{
    let start = reader.next.start;
    let mut used = 0;
    loop {
        let name = reader.next;
        if name.kind != kinds::NAME || !is_admitted(reader.text, root, used, name) {
            return Err(no_name(root, name));
        }
        let end = name.end;
        reader.pass();
        if reader.next.kind != b'.' {
            return Ok(Path {
                start,
                end,
                call: None,
            });
        }
        reader.pass();
        if let Some(call) = call_kind(left, reader.next.kind) {
            reader.pass();
            return Ok(Path {
                start,
                end,
                call: Some(call),
            });
        }
        used += end - name.start + 1;
    }
}

// A path, with its entry of a kind.
pub fn read_placed(reader: &mut Reader, root: u8, kind: u8) -> Result<(), u8>
    requires { ReadyToRead reader.old.text.now reader.old.free reader.old.next }
    ensures { Done (λ e s. placed kind s ∷ []) (read_path (root_from root)) reader.old reader.new result }
{
    let path = read_way(reader, root, false)?;
    reader.put(kind, path.start, path.end);
    Ok(())
}
