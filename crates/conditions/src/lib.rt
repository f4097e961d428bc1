// The readers of conditions. They call each other, at most `depth` levels deep: so many levels may still stand inside what is read. Chains of `&&`
// and `||` are loops.
#![tactic(auto)]

ghost use Rattle.std.specs.Prelude.{◌≡◌, [], ◌+◌, ◌≤◌, length};
ghost use Rattle.tokens.specs.Sizes.{most_text_bytes};
ghost use Rattle.reading.specs.Lexemes.{lexeme};
ghost use Rattle.grammar.specs.Parser.{no_level, read_condition, read_conjunction, read_disjunction, read_negated, read_bracketed, read_conditional};
ghost use Rattle.table.specs.Entries.{tree_entries};
ghost use Rattle.parts.specs.Answers.{ReadyToRead, Done, DoneAt};

use leaves::{read_operator, read_rooted};
use parts::answers::Reader;
use parts::lists::{is_text_literal, literal_entry, no_text};
use parts::paths::is_root;
use parts::refusals;
use table::entries;
use tokens::kinds;
use tokens::reader::Token;

// The number by which a token is refused where a condition must stand and no level is left.
#[tactic(auto, unfolding(grammar::specs::Parser::no_level))]
fn no_level(t: Token) -> u8
    ensures { result ≡ no_level (lexeme [] t) }
{
    match t.kind {
        b'!' | b'(' | kinds::IF => refusals::TOO_DEEP,
        _ => no_text(t),
    }
}

// A condition that holds no other. It stays a function of its own: its frame would stand on the stack at every level (docs/BENCH.md).
#[inline(never)]
fn read_plain(reader: &mut Reader) -> Result<(), u8>
    requires { ReadyToRead reader.old.text.now reader.old.free reader.old.next }
    ensures { Done tree_entries (read_condition 0) reader.old reader.new result }
{
    let t = reader.next;
    if is_root(t) {
        reader.pass();
        return read_rooted(reader, t.kind);
    }
    if is_text_literal(reader.text, t) {
        reader.pass();
        return read_operator(reader, literal_entry(t));
    }
    Err(no_level(t))
}

// Conjunctions joined by `||`.
#[cycle(condition_readers)]
pub fn read_disjunction(reader: &mut Reader, depth: usize) -> Result<(), u8>
    requires { ReadyToRead reader.old.text.now reader.old.free reader.old.next × (length reader.old.text.now ≤ most_text_bytes) }
    ensures { Done tree_entries (read_disjunction (read_condition depth)) reader.old reader.new result }
{
    read_conjunction(reader, depth)?;
    while reader.next.kind == kinds::OR {
        let first = reader.free;
        reader.pass();
        read_conjunction(reader, depth)?;
        reader.put(entries::OR, first, 0);
    }
    Ok(())
}

// Conditions joined by `&&`.
#[cycle(condition_readers)]
fn read_conjunction(reader: &mut Reader, depth: usize) -> Result<(), u8>
    requires { ReadyToRead reader.old.text.now reader.old.free reader.old.next × (length reader.old.text.now ≤ most_text_bytes) }
    ensures { Done tree_entries (read_conjunction (read_condition depth)) reader.old reader.new result }
{
    read_condition(reader, depth)?;
    while reader.next.kind == kinds::AND {
        let first = reader.free;
        reader.pass();
        read_condition(reader, depth)?;
        reader.put(entries::AND, first, 0);
    }
    Ok(())
}

// A condition, by its first token and the levels that are left.
#[cycle(condition_readers)]
fn read_condition(reader: &mut Reader, depth: usize) -> Result<(), u8>
    requires { ReadyToRead reader.old.text.now reader.old.free reader.old.next × (length reader.old.text.now ≤ most_text_bytes) }
    ensures { Done tree_entries (read_condition depth) reader.old reader.new result }
{
    if depth == 0 {
        return read_plain(reader);
    }
    match reader.next.kind {
        b'!' => {
            reader.pass();
            read_negation(reader, depth - 1)
        }
        b'(' => {
            reader.pass();
            read_group(reader, depth - 1)
        }
        kinds::IF => {
            reader.pass();
            read_choice(reader, depth - 1)
        }
        _ => read_plain(reader),
    }
}

// After `!`.
#[cycle(condition_readers)]
fn read_negation(reader: &mut Reader, depth: usize) -> Result<(), u8>
    requires { ReadyToRead reader.old.text.now (reader.old.free + 1) reader.old.next × (length reader.old.text.now ≤ most_text_bytes) }
    ensures { DoneAt tree_entries 1 (read_negated (read_condition depth)) reader.old reader.new result }
{
    read_condition(reader, depth)?;
    reader.put(entries::NOT, 0, 0);
    Ok(())
}

// After `(`.
#[cycle(condition_readers)]
fn read_group(reader: &mut Reader, depth: usize) -> Result<(), u8>
    requires { ReadyToRead reader.old.text.now (reader.old.free + 1) reader.old.next × (length reader.old.text.now ≤ most_text_bytes) }
    ensures { DoneAt tree_entries 1 (read_bracketed (read_condition depth)) reader.old reader.new result }
{
    read_disjunction(reader, depth)?;
    reader.expect(b')')?;
    reader.put(entries::BRACKETS, 0, 0);
    Ok(())
}

// After `if`.
#[cycle(condition_readers)]
fn read_choice(reader: &mut Reader, depth: usize) -> Result<(), u8>
    requires { ReadyToRead reader.old.text.now (reader.old.free + 1) reader.old.next × (length reader.old.text.now ≤ most_text_bytes) }
    ensures { DoneAt tree_entries 1 (read_conditional (read_condition depth)) reader.old reader.new result }
{
    read_condition(reader, depth)?;
    reader.expect(kinds::THEN)?;
    let first = reader.free;
    read_condition(reader, depth)?;
    reader.expect(kinds::ELSE)?;
    let second = reader.free;
    read_condition(reader, depth)?;
    reader.put(entries::IF, first, second);
    Ok(())
}
