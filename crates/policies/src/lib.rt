// The readers of policies, and of a whole text.
#![tactic(auto)]

ghost use Rattle.std.specs.Prelude.{◌≡◌, true, [], ◌∷◌, ◌+◌, ◌-◌, ◌≤◌, length};
ghost use Rattle.tokens.specs.Sizes.{most_text_bytes};
ghost use Rattle.reading.specs.Lexemes.{lexeme, stream, tokens_of};
ghost use Rattle.reading.specs.Reader.{need, before};
ghost use Rattle.grammar.specs.Parser.{no_policy, read_principal, read_action, read_resource, read_when, read_policy, read_text};
ghost use Rattle.table.specs.Entries.{part_entry, principal_entry, action_entries, condition_entries, policy_entries, effect_kind};
ghost use Rattle.tokens.specs.Kinds as kinds;
ghost use Rattle.parts.specs.Answers.{ReadyToRead, Done, DoneFrom, DoneAt};
ghost use Rattle.policies.specs.Whole.{Told};

use conditions::read_disjunction;
use grammar::Version;
use heads::{read_action, read_principal, read_resource};
use parts::answers::{Reader, Refusal, turned_away};
use parts::refusals;
use table::entries;
use token_reader::next_token;
use tokens::kinds;
use tokens::reader::Token;
use tokens::sizes::{MOST_INSIDE, MOST_POLICIES};

// What a whole text is: how many policies and entries it has, and whether the table that is seen has all these.
#[derive(Clone, Copy)]
pub struct Whole {
    pub policies: usize,
    pub entries: usize,
    pub same: bool,
}

// The number by which a token is refused where a policy may begin: the effect of a 65th, or any other token.
fn no_policy(t: Token) -> u8
    ensures { result ≡ no_policy (lexeme [] t) }
{
    if (t.kind == kinds::PERMIT) | (t.kind == kinds::FORBID) {
        refusals::TOO_MANY_POLICIES
    } else {
        refusals::NOT_ADMITTED
    }
}

// The kind of a policy's entry (docs/TABLE.md).
fn effect_kind(permits: bool) -> u8
    ensures { result ≡ effect_kind permits }
{
    if permits {
        entries::PERMIT
    } else {
        entries::FORBID
    }
}

// After a policy's effect: `(`, the principal part and its comma.
fn read_first(reader: &mut Reader, version: Version) -> Result<(), u8>
    requires { ReadyToRead reader.old.text.now (reader.old.free + 1) reader.old.next }
    ensures { DoneFrom (λ e p. principal_entry version p ∷ []) (reader.old.next.start + 1)
        (need kinds.left_round (need kinds.principal_word (before kinds.comma read_principal)) (stream reader.old.text.now reader.old.next))
        reader.old reader.new result }
{
    reader.expect(b'(')?;
    reader.expect(kinds::PRINCIPAL)?;
    read_principal(reader, version)?;
    reader.expect(b',')
}

// The action part and its comma.
fn read_second(reader: &mut Reader) -> Result<(), u8>
    requires { ReadyToRead reader.old.text.now (reader.old.free + 1) reader.old.next }
    ensures { Done (λ e. action_entries) (need kinds.action_word (before kinds.comma read_action)) reader.old reader.new result }
{
    reader.expect(kinds::ACTION)?;
    read_action(reader)?;
    reader.expect(b',')
}

// The resource part and `)`.
fn read_third(reader: &mut Reader) -> Result<(), u8>
    requires { ReadyToRead reader.old.text.now (reader.old.free + 1) reader.old.next }
    ensures { Done (λ e p. part_entry p ∷ []) (need kinds.resource_word (before kinds.right_round read_resource))
        reader.old reader.new result }
{
    reader.expect(kinds::RESOURCE)?;
    read_resource(reader)?;
    reader.expect(b')')
}

// The `when` part, if there is one.
fn read_when(reader: &mut Reader) -> Result<(), u8>
    requires { ReadyToRead reader.old.text.now (reader.old.free + 1) reader.old.next × (length reader.old.text.now ≤ most_text_bytes) }
    ensures { DoneAt condition_entries 1 read_when reader.old reader.new result }
{
    if reader.next.kind != kinds::WHEN {
        return Ok(());
    }
    reader.pass();
    reader.expect(b'{')?;
    read_disjunction(reader, MOST_INSIDE)?;
    reader.expect(b'}')
}

// After a policy's effect.
fn read_policy(reader: &mut Reader, permits: bool, version: Version) -> Result<(), u8>
    requires { ReadyToRead reader.old.text.now (reader.old.free + 1) reader.old.next × (length reader.old.text.now ≤ most_text_bytes) }
    ensures { DoneAt (policy_entries version) 1 (read_policy permits) reader.old reader.new result }
{
    let first = reader.free;
    read_first(reader, version)?;
    read_second(reader)?;
    read_third(reader)?;
    let second = reader.free;
    read_when(reader)?;
    reader.expect(b';')?;
    reader.put(effect_kind(permits), first, second);
    Ok(())
}

// A whole text under a version: its entries are put into the one table and compared with the other.
pub fn read_all(
    text: &[u8],
    table: &mut [u8],
    seen: &[u8],
    version: Version,
) -> Result<Whole, Refusal>
    requires { length text.now ≤ most_text_bytes }
    ensures { Told version text.now seen.now table.old table.new (read_text (tokens_of text.now)) result }
{
    let mut reader = Reader {
        text,
        table,
        seen,
        next: next_token(text, 0),
        free: 0,
        same: true,
    };
    let mut policies = 0;
    loop {
        let t = reader.next;
        let permits = t.kind == kinds::PERMIT;
        let effect = permits | (t.kind == kinds::FORBID);
        if !(effect & (policies < MOST_POLICIES)) {
            if t.kind == kinds::END_OF_TEXT {
                return Ok(Whole {
                    policies,
                    entries: reader.free,
                    same: reader.same,
                });
            }
            return Err(turned_away(text, t, no_policy(t)));
        }
        reader.pass();
        if let Err(number) = read_policy(&mut reader, permits, version) {
            return Err(turned_away(text, reader.next, number));
        }
        policies += 1;
    }
}
