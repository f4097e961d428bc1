// The readers of conditions that hold no other: what follows a left operand, and what follows a root.
#![tactic(auto)]

pub mod likes;

ghost use Rattle.std.specs.Prelude.{◌≡◌, [], ◌∷◌, ◌++◌, ◌+◌, ◌<◌, ◌^◌, length};
ghost use Rattle.tokens.specs.Tokens.{Reads};
ghost use Rattle.reading.specs.Lexemes.{lexeme};
ghost use Rattle.reading.specs.Reader.{mapped};
ghost use Rattle.grammar.specs.Policies.{Span, span, Root, Comparator, Operand, compare, attribute, Which};
ghost use Rattle.grammar.specs.Parser.{read_list, read_operand, read_bare, read_in, read_pattern, read_operator, read_call, read_rest, read_rooted, no_operator};
ghost use Rattle.grammar.specs.Rules.{is_literal};
ghost use Rattle.table.specs.Entries.{entry, literal_entries, operand_entry, tree_entries, comparator_kind, which_kind};
ghost use Rattle.parts.specs.Answers.{ReadyToRead, DoneAt};
ghost use Rattle.parts.specs.Names.{root_from, comparing};

use crate::likes::is_pattern;
use parts::answers::Reader;
use parts::attributes::{read_attribute, read_operand};
use parts::lists::{is_text, read_list};
use parts::paths::{has_kind, is_root, read_placed, read_way, root_kind};
use parts::refusals;
use table::{Entry, entries};
use tokens::kinds;
use tokens::reader::Token;

// The kind of the entry of a comparator; None for any other token.
#[tactic(auto, unfolding(parts::specs::Names::comparing, grammar::specs::Rules::comparator_of))]
fn comparator_kind(kind: u8) -> Option<u8>
    ensures { result ≡ comparing kind }
{
    match kind {
        kinds::EQUAL => Some(entries::EQUAL),
        kinds::NOT_EQUAL => Some(entries::NOT_EQUAL),
        b'>' => Some(entries::MORE),
        kinds::AT_LEAST => Some(entries::AT_LEAST),
        b'<' => Some(entries::LESS),
        kinds::AT_MOST => Some(entries::AT_MOST),
        _ => None,
    }
}

// The number by which a token is refused that follows an attribute as left operand.
#[tactic(auto, unfolding(grammar::specs::Parser::no_operator))]
fn no_operator(t: Token) -> u8
    ensures { result ≡ no_operator (lexeme [] t) }
{
    match t.kind {
        kinds::AND | kinds::OR | b')' | b'}' | kinds::THEN | kinds::ELSE => {
            refusals::BARE_ATTRIBUTE
        }
        _ => refusals::NOT_ADMITTED,
    }
}

// A list after its `[`, and an entry of a kind that counts its literals.
fn read_counted(reader: &mut Reader, kind: u8) -> Result<(), u8>
    requires { ReadyToRead reader.old.text.now (reader.old.free + 1) reader.old.next }
    ensures { DoneAt (λ e ls. literal_entries ls ++ (entry kind (length ls) 0 ∷ [])) 1 (read_list is_literal) reader.old reader.new result }
{
    let first = reader.free;
    read_list(reader, false)?;
    reader.put(kind, reader.free - first, 0);
    Ok(())
}

// After a comparator, whose entry has this kind; `left` is the left operand's entry, here and below.
fn read_compared(reader: &mut Reader, left: Entry, kind: u8) -> Result<(), u8>
    requires { ReadyToRead reader.old.text.now (reader.old.free + 2) reader.old.next }
    ensures { (a : Operand) → operand_entry a ≡ left → (c : Comparator) → comparator_kind c ≡ kind
        → DoneAt tree_entries 2 (mapped (compare c a) read_operand) reader.old reader.new result }
{
    reader.put_entry(left);
    read_operand(reader)?;
    reader.put(kind, 0, 0);
    Ok(())
}

// After `like`.
fn read_pattern(reader: &mut Reader, left: Entry) -> Result<(), u8>
    requires { ReadyToRead reader.old.text.now (reader.old.free + 2) reader.old.next }
    ensures { (a : Operand) → operand_entry a ≡ left
        → DoneAt tree_entries 2 (read_pattern a) reader.old reader.new result }
{
    let t = reader.next;
    if t.kind != kinds::STRING {
        return Err(refusals::NOT_ADMITTED);
    }
    if !is_text(reader.text, t) {
        return Err(refusals::NOT_UTF8);
    }
    if !is_pattern(reader.text, t) {
        return Err(refusals::NO_PATTERN);
    }
    reader.pass();
    reader.put_entry(left);
    reader.put(entries::LIKE, t.start, t.end);
    Ok(())
}

// After `in`.
fn read_in(reader: &mut Reader, left: Entry) -> Result<(), u8>
    requires { ReadyToRead reader.old.text.now (reader.old.free + 2) reader.old.next }
    ensures { (a : Operand) → operand_entry a ≡ left
        → DoneAt tree_entries 2 (read_in a) reader.old reader.new result }
{
    let t = reader.next;
    if t.kind == b'[' {
        reader.pass();
        reader.put_entry(left);
        return read_counted(reader, entries::IN_LIST);
    }
    if is_root(t) {
        reader.pass();
        reader.put_entry(left);
        read_attribute(reader, t.kind)?;
        reader.put(entries::IN_ATTRIBUTE, 0, 0);
        return Ok(());
    }
    Err(refusals::NOT_ADMITTED)
}

// After a left operand that no operator follows: an attribute, a string or a number is refused, true or false is a condition.
fn read_bare(reader: &mut Reader, left: Entry) -> Result<(), u8>
    requires { Reads reader.old.text.now (reader.old.free + 1) reader.old.next × (length reader.old.text.now < 2 ^ 60) }
    ensures { (a : Operand) → operand_entry a ≡ left
        → DoneAt tree_entries 1 (read_bare a) reader.old reader.new result }
{
    if left.kind <= entries::ACTION {
        return Err(no_operator(reader.next));
    }
    if left.kind <= entries::NUMBER {
        return Err(refusals::NOT_ADMITTED);
    }
    reader.put_entry(left);
    Ok(())
}

// After a left operand.
pub fn read_operator(reader: &mut Reader, left: Entry) -> Result<(), u8>
    requires { ReadyToRead reader.old.text.now (reader.old.free + 1) reader.old.next }
    ensures { (a : Operand) → operand_entry a ≡ left
        → DoneAt tree_entries 1 (read_operator a) reader.old reader.new result }
{
    let kind = reader.next.kind;
    if let Some(comparator) = comparator_kind(kind) {
        reader.pass();
        return read_compared(reader, left, comparator);
    }
    match kind {
        kinds::LIKE => {
            reader.pass();
            read_pattern(reader, left)
        }
        kinds::IN => {
            reader.pass();
            read_in(reader, left)
        }
        _ => read_bare(reader, left),
    }
}

// After containsAll or containsAny, whose entry has this kind.
fn read_call(reader: &mut Reader, kind: u8, left: Entry) -> Result<(), u8>
    requires { ReadyToRead reader.old.text.now (reader.old.free + 1) reader.old.next }
    ensures { (w : Which) → which_kind w ≡ kind → (root : Root) (p : Span) → operand_entry (attribute root p) ≡ left
        → DoneAt tree_entries 1 (read_call w root p) reader.old reader.new result }
{
    reader.expect(b'(')?;
    reader.expect(b'[')?;
    reader.put_entry(left);
    read_counted(reader, kind)?;
    reader.expect(b')')
}

// After a root: a left operand, or `has` and a path.
pub fn read_rooted(reader: &mut Reader, root: u8) -> Result<(), u8>
    requires { ReadyToRead reader.old.text.now (reader.old.free + 1) reader.old.next }
    ensures { DoneAt tree_entries 1 (read_rooted (root_from root)) reader.old reader.new result }
{
    if reader.next.kind == kinds::HAS {
        reader.pass();
        return read_placed(reader, root, has_kind(root));
    }
    reader.expect(b'.')?;
    let path = read_way(reader, root, true)?;
    let left = Entry {
        kind: root_kind(root),
        first: path.start,
        second: path.end,
    };
    match path.call {
        Some(call) => read_call(reader, call, left),
        None => read_operator(reader, left),
    }
}
