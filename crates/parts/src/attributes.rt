// Operands: attributes and literals.
ghost use Rattle.std.specs.Prelude.{[], ◌∷◌};
ghost use Rattle.grammar.specs.Parser.{read_attribute, read_operand};
ghost use Rattle.grammar.specs.Policies.{root_byte};
ghost use Rattle.table.specs.Entries.{placed, operand_entry};
ghost use Rattle.parts.specs.Answers.{ReadyToRead, Done};
ghost use Rattle.parts.specs.Names.{root_from};

use crate::answers::Reader;
use crate::lists::{is_text_literal, literal_entry, no_text};
use crate::paths::{is_root, read_placed, root_kind};

// What follows the root of an attribute that is no left operand: a dot and a path.
pub fn read_attribute(reader: &mut Reader, root: u8) -> Result<(), u8>
    requires { ReadyToRead reader.old.text.now reader.old.free reader.old.next }
    ensures { Done (λ e s. placed (root_byte (root_from root)) s ∷ []) (read_attribute (root_from root) (λ root s. s))
        reader.old reader.new result }
{
    reader.expect(b'.')?;
    read_placed(reader, root, root_kind(root))
}

// An operand that is not the left one.
pub fn read_operand(reader: &mut Reader) -> Result<(), u8>
    requires { ReadyToRead reader.old.text.now reader.old.free reader.old.next }
    ensures { Done (λ e a. operand_entry a ∷ []) read_operand reader.old reader.new result }
{
    let t = reader.next;
    if is_text_literal(reader.text, t) {
        reader.pass();
        reader.put_entry(literal_entry(t));
        return Ok(());
    }
    if is_root(t) {
        reader.pass();
        return read_attribute(reader, t.kind);
    }
    Err(no_text(t))
}
