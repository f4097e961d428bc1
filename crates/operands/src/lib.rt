// What an operand's entry stands for: a read value, and its string as a part of the rule text, of the bag or question, or the action itself. Two of these
// compared, and lists of them.
#![tactic(auto)]

ghost use Rattle.std.specs.Prelude.{◌≡◌, true};
ghost use Rattle.lookups.specs.Values.{ValueWhole};
ghost use Rattle.views.specs.Places.{RowAt};
ghost use Rattle.placing.specs.Placed.{quoted_at, Lies, StringPlaced, LiteralPlaced, OperandPlaced};
ghost use Rattle.stored.specs.ReadBack.{span_of_entry, literal_of_entry, operand_of_entry};
ghost use Rattle.operands.specs.Operands.{of_bag, attribute_read, literal_read, operand_read, string_of};

use lookups::values::{Value, value_at};
use numbers::literals::number;
use questions::sizes::MOST_COLUMNS;
use slots::KEPT;
use table::{Entry, entries};
use views::attribute;

pub mod lists;
pub mod values;

// What policies are met over: a rule text and its table; the bytes of a bag or question with the places that are found in them, what is chosen for its columns; and the action.
#[derive(Clone, Copy)]
pub struct Row<'a> {
    pub text: &'a [u8],
    pub table: &'a [u8],
    pub s: &'a [u8],
    pub places: &'a [u16; KEPT],
    pub values: &'a [usize; MOST_COLUMNS],
    pub action: &'a [u8],
    pub ghost stands: { ∥ RowAt s.now places.now values.now ∥₁ },
}

// A string that does not lie in the bag or question.
const A_STRING: Value = Value {
    kind: bags::values::STRING,
    number: 0.0,
    place: 0,
};

// Whether a root is one of the bag's: principal, resource or env.
fn of_bag(root: u8) -> bool
    ensures { result ≡ of_bag root }
{
    entries::PRINCIPAL <= root && root <= entries::ENV
}

// A literal's value: the text alone has it.
pub fn literal_value(text: &[u8], o: Entry) -> Value
    requires { LiteralPlaced text.now (literal_of_entry o) }
    ensures { result ≡ literal_read text.now o }
{
    match o.kind {
        entries::STRING => A_STRING,
        entries::NUMBER => Value {
            kind: bags::values::NUMBER,
            number: number(&text[o.first..o.second]),
            place: 0,
        },
        entries::TRUE => Value {
            kind: bags::values::FLAG,
            number: 1.0,
            place: 0,
        },
        _ => Value {
            kind: bags::values::FLAG,
            number: 0.0,
            place: 0,
        },
    }
}

impl<'a> Row<'a> {
    // An attribute's value. The action has no attribute but its name.
    #[inline(always)]
    pub fn attribute_value(&self, o: Entry) -> Value
        requires { Lies self.now.text.now (span_of_entry o) }
        ensures { result ≡ attribute_read self.now.text.now self.now.s.now self.now.places.now self.now.values.now o }
    {
        if !of_bag(o.kind) {
            return A_STRING;
        }
        let text = self.text;
        let path = &text[o.first..o.second];
        let k = attribute(self.s, self.places, self.values, o.kind, path);
        value_at(self.s, k)
    }

    // A literal's value.
    pub fn literal_value(&self, o: Entry) -> Value
        requires { LiteralPlaced self.now.text.now (literal_of_entry o) }
        ensures { result ≡ literal_read self.now.text.now o }
    {
        literal_value(self.text, o)
    }

    // An operand's value.
    pub fn operand_value(&self, o: Entry) -> Value
        requires { OperandPlaced self.now.text.now (operand_of_entry o) }
        ensures { result ≡ operand_read self.now.text.now self.now.s.now self.now.places.now self.now.values.now o }
    {
        if o.kind <= entries::ACTION {
            self.attribute_value(o)
        } else {
            self.literal_value(o)
        }
    }
}

// The bytes of a literal's string, between its quotes.
pub fn quoted<'a>(text: &'a [u8], o: Entry) -> &'a [u8]
    requires { StringPlaced text.now (span_of_entry o) }
    ensures { result.now ≡ quoted_at text.now (span_of_entry o) }
{
    &text[o.first + 1..o.second - 1]
}

// The bytes of an operand's string, where they lie.
pub fn operand_string<'a>(
    text: &'a [u8],
    s: &'a [u8],
    action: &'a [u8],
    o: Entry,
    v: Value,
) -> &'a [u8]
    requires operand_placed { OperandPlaced text.now (operand_of_entry o) }
    requires value_whole { of_bag o.kind ≡ true → ValueWhole s.now v }
    ensures { result.now ≡ string_of text.now s.now action.now o v }
{
    if v.kind != bags::values::STRING {
        return action;
    }
    if of_bag(o.kind) {
        let start = v.place + 1;
        let end = start + s[v.place] as usize;
        return &s[start..end];
    }
    if o.kind == entries::STRING {
        return quoted(text, o);
    }
    action
}
