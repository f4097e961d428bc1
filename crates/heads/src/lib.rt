// The readers of the parts of a policy's target.
#![tactic(auto)]

ghost use Rattle.std.specs.Prelude.{◌≡◌, [], ◌∷◌, cond, ◌+◌, ◌≤◌};
ghost use Rattle.slices.specs.Same.{same};
ghost use Rattle.grammar.specs.Rules.{type_among, principal_types, resource_types};
ghost use Rattle.grammar.specs.Parser.{read_type, read_principal, read_action, read_resource};
ghost use Rattle.table.specs.Kinds.{second_step};
ghost use Rattle.table.specs.Entries.{part_entry, raised, principal_entry, action_entries};
ghost use Rattle.parts.specs.Answers.{ReadyToRead, Done, DoneAt};
ghost use Rattle.parts.specs.Names.{types_of};

use grammar::Version;
use parts::answers::Reader;
use parts::lists::{is_text, read_list};
use parts::refusals;
use slices::same as equal;
use table::{Entry, entries, step_of};
use tokens::kinds;

// The number if the name is this type's, else the other number.
fn number_if(name: &[u8], sort: &[u8], number: usize, other: usize) -> usize
    ensures { result ≡ cond (same name.now sort.now) number other }
{
    if equal(name, sort) { number } else { other }
}

// The number of a type among those of the principal; 0 where the name is none of them.
fn principal_type(name: &[u8]) -> usize
    ensures { result ≡ type_among principal_types 1 name.now }
{
    let n = number_if(name, b"tool", 2, 0);
    number_if(name, b"person", 1, n)
}

// The same among those of the resource.
fn resource_type(name: &[u8]) -> usize
    ensures { result ≡ type_among resource_types 1 name.now }
{
    let n = number_if(name, b"record", 4, 0);
    let n = number_if(name, b"parameter", 3, n);
    let n = number_if(name, b"shaft", 2, n);
    number_if(name, b"controller", 1, n)
}

// The same among those of the resource, or else of the principal.
pub fn type_number(resource: bool, name: &[u8]) -> usize
    ensures { result ≡ type_among (types_of resource) 1 name.now }
{
    if resource {
        resource_type(name)
    } else {
        principal_type(name)
    }
}

// After `is`. The kind of its entry is higher by `step`.
fn read_type(reader: &mut Reader, resource: bool, step: u8) -> Result<(), u8>
    requires { ReadyToRead reader.old.text.now reader.old.free reader.old.next × (step ≤ second_step) }
    ensures { Done (λ e p. raised step (part_entry p) ∷ []) (read_type (types_of resource)) reader.old reader.new result }
{
    let t = reader.next;
    if t.kind != kinds::NAME {
        return Err(refusals::NOT_ADMITTED);
    }
    let sort = type_number(resource, &reader.text[t.start..t.end]);
    if sort == 0 {
        return Err(refusals::NO_TYPE);
    }
    reader.pass();
    reader.put(entries::TYPED_PART + step, sort, 0);
    Ok(())
}

// After principal. The part records the version.
pub fn read_principal(reader: &mut Reader, version: Version) -> Result<(), u8>
    requires { ReadyToRead reader.old.text.now (reader.old.free + 1) reader.old.next }
    ensures { DoneAt (λ e p. principal_entry version p ∷ []) 1 read_principal reader.old reader.new result }
{
    let step = step_of(version);
    if reader.next.kind == kinds::IS {
        reader.pass();
        return read_type(reader, false, step);
    }
    reader.put(entries::BARE_PART + step, 0, 0);
    Ok(())
}

// After action.
pub fn read_action(reader: &mut Reader) -> Result<(), u8>
    requires { ReadyToRead reader.old.text.now (reader.old.free + 1) reader.old.next }
    ensures { DoneAt (λ e. action_entries) 1 read_action reader.old reader.new result }
{
    if reader.next.kind != kinds::IN {
        reader.put(entries::BARE_ACTION, 0, 0);
        return Ok(());
    }
    reader.pass();
    reader.expect(b'[')?;
    let first = reader.free;
    read_list(reader, true)?;
    reader.put(entries::LISTED_ACTION, reader.free - first, 0);
    Ok(())
}

// After resource.
pub fn read_resource(reader: &mut Reader) -> Result<(), u8>
    requires { ReadyToRead reader.old.text.now (reader.old.free + 1) reader.old.next }
    ensures { DoneAt (λ e p. part_entry p ∷ []) 1 read_resource reader.old reader.new result }
{
    match reader.next.kind {
        kinds::IS => {
            reader.pass();
            read_type(reader, true, 0)
        }
        kinds::EQUAL => {
            reader.pass();
            let s = reader.next;
            if s.kind != kinds::STRING {
                return Err(refusals::NOT_ADMITTED);
            }
            if !is_text(reader.text, s) {
                return Err(refusals::NOT_UTF8);
            }
            reader.pass();
            reader.put(entries::PINNED_PART, s.start, s.end);
            Ok(())
        }
        _ => {
            reader.put(entries::BARE_PART, 0, 0);
            Ok(())
        }
    }
}
