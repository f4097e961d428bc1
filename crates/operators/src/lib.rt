// Conditions without parts, found out entry by entry, over a row's view of attributes: yes or no, or missing where an operator other than `has` met an absent
// one. What missing counts as goes by the version of the rules, and is not asked here.
#![tactic(auto)]

ghost use Rattle.std.specs.Prelude.{◌≡◌, false, cond, List, ℕ, ◌+◌, ◌-◌, ◌<◌, ◌≤◌};
ghost use Rattle.views.specs.Meaning.{present};
ghost use Rattle.placing.specs.Placed.{quoted_at, Each, StringPlaced, PathPlaced, LiteralPlaced, OperandPlaced};
ghost use Rattle.table.specs.Kinds.{false_kind, in_attribute_kind, contains_any_kind};
ghost use Rattle.table.specs.Layout.{entries_in, entry_at};
ghost use Rattle.stored.specs.ReadBack.{span_of_entry, root_of_kind, comparator_of_kind, operand_of_entry, literals_at, tree_of};
ghost use Rattle.stored.specs.Ready.{Room, Node};
ghost use Rattle.meaning.specs.Conditions.{told, compared, likened, in_attribute};
ghost use Rattle.meaning.specs.declared.Verdict.TheVariants.{Missing};
ghost use Rattle.operands.specs.Operands.{operand_read, meant, meant_path};
ghost use Rattle.operators.specs.Verdicts.{verdict_seen, given_among, given_listed, left_at};

use lookups::values::Value;
use meaning::Verdict;
use operands::lists::{among_literals, in_list, literal_holds, literals_listed};
use operands::values::{is_present, values_hold};
use operands::{Row, operand_string, quoted};
use table::{Entry, entries, entry_in};

// Kinds of entries have names (table::entries, docs/TABLE.md), and so have kinds of values, which are a bag's (bags::values).

// Yes where b, else no.
fn told_of(b: bool) -> Verdict
    ensures { result ≡ told b }
{
    if b { Verdict::Yes } else { Verdict::No }
}

// What an operator says by its test, where `met` tells whether all values that it met are present.
fn given_of(met: bool, holds: bool) -> Verdict
    ensures { result ≡ cond met (told holds) Missing }
{
    if met {
        return told_of(holds);
    }
    Verdict::Missing
}

// Whether a root has the path of the entry o.
fn has_attribute(row: &Row, o: Entry) -> bool
    requires { PathPlaced row.now.text.now (root_of_kind o.kind) (span_of_entry o) }
    ensures { (action : List ℕ) → result ≡ present
        (meant_path row.now.text.now row.now.s.now row.now.places.now row.now.values.now action o) }
{
    is_present(row.attribute_value(o))
}

// Two operands, with the comparator of an entry's kind. The first was read: v.
fn compare_operands(row: &Row, kind: u8, a: Entry, b: Entry, v: Value) -> Verdict
    requires operand_placed { OperandPlaced row.now.text.now (operand_of_entry a) }
    requires operand_placed_2 { OperandPlaced row.now.text.now (operand_of_entry b) }
    requires v_value { v ≡ operand_read row.now.text.now row.now.s.now row.now.places.now row.now.values.now a }
    ensures { result ≡ compared (comparator_of_kind kind)
        (meant row.now.text.now row.now.s.now row.now.places.now row.now.values.now row.now.action.now a)
        (meant row.now.text.now row.now.s.now row.now.places.now row.now.values.now row.now.action.now b) }
{
    let met = is_present(v);
    let x = operand_string(row.text, row.s, row.action, a, v);
    let sort = b.kind;
    if entries::ACTION < sort {
        return given_of(met, literal_holds(row, kind, b, v, x));
    }
    let w = row.attribute_value(b);
    let both = met & is_present(w);
    let y = operand_string(row.text, row.s, row.action, b, w);
    given_of(both, values_hold(kind, v, x, w, y))
}

// An operand, read as v, `like` the pattern of the entry o.
fn like_operand(row: &Row, o: Entry, a: Entry, v: Value) -> Verdict
    requires operand_placed { OperandPlaced row.now.text.now (operand_of_entry a) }
    requires string_placed { StringPlaced row.now.text.now (span_of_entry o) }
    requires v_value { v ≡ operand_read row.now.text.now row.now.s.now row.now.places.now row.now.values.now a }
    ensures { result ≡ likened
        (meant row.now.text.now row.now.s.now row.now.places.now row.now.values.now row.now.action.now a)
        (quoted_at row.now.text.now (span_of_entry o)) }
{
    let met = is_present(v);
    let kind = v.kind;
    if kind != bags::values::STRING {
        return given_of(met, false);
    }
    let x = operand_string(row.text, row.s, row.action, a, v);
    given_of(met, patterns::like(quoted(row.text, o), x))
}

// An operand, read as v, `in` the list of the `count` literals from entry `at` on.
fn operand_in_list(row: &Row, count: usize, at: usize, a: Entry, v: Value) -> Verdict
    requires operand_placed { OperandPlaced row.now.text.now (operand_of_entry a) }
    requires each { Each (LiteralPlaced row.now.text.now) (literals_at count row.now.table.now at) }
    requires count_bound { at + count ≤ entries_in row.now.table.now }
    requires v_value { v ≡ operand_read row.now.text.now row.now.s.now row.now.places.now row.now.values.now a }
    ensures { result ≡ given_among row.now.text.now
        (meant row.now.text.now row.now.s.now row.now.places.now row.now.values.now row.now.action.now a)
        (literals_at count row.now.table.now at) }
{
    let met = is_present(v);
    let x = operand_string(row.text, row.s, row.action, a, v);
    given_of(met, among_literals(row, count, at, v, x))
}

// An operand, read as v, `in` the attribute of the entry b.
fn operand_in_attribute(row: &Row, a: Entry, b: Entry, v: Value) -> Verdict
    requires operand_placed { OperandPlaced row.now.text.now (operand_of_entry a) }
    requires path_placed { PathPlaced row.now.text.now (root_of_kind b.kind) (span_of_entry b) }
    requires v_value { v ≡ operand_read row.now.text.now row.now.s.now row.now.places.now row.now.values.now a }
    ensures { result ≡ in_attribute
        (meant row.now.text.now row.now.s.now row.now.places.now row.now.values.now row.now.action.now a)
        (meant_path row.now.text.now row.now.s.now row.now.places.now row.now.values.now row.now.action.now b) }
{
    let w = row.attribute_value(b);
    let both = is_present(v) & is_present(w);
    let kind = v.kind;
    if kind != bags::values::STRING {
        return given_of(both, false);
    }
    let list_kind = w.kind;
    if list_kind != bags::values::LIST {
        return given_of(both, false);
    }
    let x = operand_string(row.text, row.s, row.action, a, v);
    given_of(both, in_list(row.s, w.place, x))
}

// The attribute of the entry b contains any, or all, of the `count` literals from entry `at` on.
fn contains_literals(row: &Row, any: bool, count: usize, at: usize, b: Entry) -> Verdict
    requires path_placed { PathPlaced row.now.text.now (root_of_kind b.kind) (span_of_entry b) }
    requires each { Each (LiteralPlaced row.now.text.now) (literals_at count row.now.table.now at) }
    requires count_bound { at + count ≤ entries_in row.now.table.now }
    ensures { (action : List ℕ) → result ≡ given_listed row.now.text.now any
        (meant_path row.now.text.now row.now.s.now row.now.places.now row.now.values.now action b)
        (literals_at count row.now.table.now at) }
{
    let w = row.attribute_value(b);
    let met = is_present(w);
    let kind = w.kind;
    if kind != bags::values::LIST {
        return given_of(met, false);
    }
    let holds = literals_listed(row, any, count, at, w.place);
    given_of(met, holds)
}

// Where the left operand stands of the condition whose last entry is x, number end - 1.
fn left_at(end: usize, x: Entry) -> usize
    requires room { Room end x }
    requires false_kind_lt_kind { (false_kind < x.kind) × (x.kind ≤ in_attribute_kind) }
    ensures { result ≡ left_at end x }
{
    let kind = x.kind;
    if kind == entries::LIKE {
        return end - 2;
    }
    if kind == entries::IN_LIST {
        let count = x.first;
        return end - count - 2;
    }
    end - 3
}

// The verdict of the condition whose last entry is x, number end - 1, and whose left operand, of the entry a, was read: v.
fn left_verdict(row: &Row, end: usize, x: Entry, a: Entry, v: Value) -> Verdict
    requires node { Node row.now.text.now row.now.table.now end x }
    requires false_kind_lt_kind { (false_kind < x.kind) × (x.kind ≤ in_attribute_kind) }
    requires a_value { a ≡ entry_at row.now.table.now (left_at end x) }
    requires v_value { v ≡ operand_read row.now.text.now row.now.s.now row.now.places.now row.now.values.now a }
    ensures { result ≡ verdict_seen false row.now.text.now row.now.s.now row.now.places.now row.now.values.now
        row.now.action.now (tree_of row.now.table.now end x) }
{
    let kind = x.kind;
    if kind <= entries::AT_MOST {
        let b = entry_in(row.table, end - 2);
        return compare_operands(row, kind, a, b, v);
    }
    if kind == entries::LIKE {
        return like_operand(row, x, a, v);
    }
    if kind == entries::IN_ATTRIBUTE {
        let b = entry_in(row.table, end - 2);
        return operand_in_attribute(row, a, b, v);
    }
    let count = x.first;
    let at = end - count - 1;
    operand_in_list(row, count, at, a, v)
}

// The verdict of the condition without parts whose last entry is x, number end - 1.
fn flat_of(row: &Row, end: usize, x: Entry) -> Verdict
    requires node { Node row.now.text.now row.now.table.now end x }
    requires kind_le_contains_any_kind { x.kind ≤ contains_any_kind }
    ensures { result ≡ verdict_seen false row.now.text.now row.now.s.now row.now.places.now row.now.values.now
        row.now.action.now (tree_of row.now.table.now end x) }
{
    let kind = x.kind;
    if kind <= entries::HAS_ACTION {
        let root = kind - entries::ROOTS;
        let o = Entry { kind: root, ..x };
        return told_of(has_attribute(row, o));
    }
    if kind <= entries::FALSE {
        return told_of(kind == entries::TRUE);
    }
    if entries::CONTAINS_ALL <= kind {
        let count = x.first;
        let at = end - count - 1;
        let a = entry_in(row.table, end - count - 2);
        let any = kind == entries::CONTAINS_ANY;
        return contains_literals(row, any, count, at, a);
    }
    let a = entry_in(row.table, left_at(end, x));
    let v = row.operand_value(a);
    left_verdict(row, end, x, a, v)
}

// The verdict of the condition without parts whose entries end before number `end`.
pub fn flat(row: &Row, end: usize) -> Verdict
    requires node { Node row.now.text.now row.now.table.now end (entry_at row.now.table.now (end - 1)) }
    requires end_bound { (entry_at row.now.table.now (end - 1)).kind ≤ contains_any_kind }
    ensures { result ≡ verdict_seen false row.now.text.now row.now.s.now row.now.places.now row.now.values.now
        row.now.action.now (tree_of row.now.table.now end (entry_at row.now.table.now (end - 1))) }
{
    let x = entry_in(row.table, end - 1);
    flat_of(row, end, x)
}
