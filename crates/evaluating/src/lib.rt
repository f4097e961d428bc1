// The verdict of a compiled condition. It is met from its last entry on, in a loop; only what nests calls again.
// Kinds of entries have names (table::entries, docs/TABLE.md): conditions up to CONTAINS_ANY have no parts.
#![tactic(auto)]

ghost use Rattle.std.specs.Prelude.{◌≡◌, ◌<◌};
ghost use Rattle.stored.specs.ReadBack.{tree_at};
ghost use Rattle.stored.specs.Ready.{Ready};
ghost use Rattle.table.specs.Recorded.{recorded as recorded_version};
ghost use Rattle.table.specs.Layout.{entries_in, entry_at};
ghost use Rattle.meaning.specs.Conditions.{settles as settles_under};
ghost use Rattle.operators.specs.Verdicts.{verdict_seen};

use meaning::Verdict;
use operands::Row;
use operators::flat;
use table::{entries, entry_in, recorded};
use ways::{Way, part_met, settled_as, settles};

// The verdict of the condition whose entries end before number `end`. A chain is met from its right end: evaluating has no effects, and what its
// parts become says which of them counts. A part with parts is met here, without a call, unless it is met inside such a one. Where `settles`, what an
// operator finds Missing counts as a No, and so a No stops `&&` and a Yes stops `||`.
fn evaluate_by(settles: bool, row: &Row, end: usize) -> Verdict
    requires ready { Ready row.now.text.now row.now.table.now end }
    ensures { result ≡ verdict_seen settles row.now.text.now row.now.s.now row.now.places.now row.now.values.now
        row.now.action.now (tree_at row.now.table.now end) }
{
    let mut w = Way {
        at: end,
        yes: Verdict::Yes,
        no: Verdict::No,
        rest: 0,
        held: Verdict::Yes,
        kept: Verdict::Yes,
    };
    loop {
        if w.at < 1 {
            let v = w.no;
            if w.rest < 1 {
                return v;
            }
            let x = entry_in(row.table, w.rest - 1);
            let u = w.come_back();
            w = u.after_part(settles, x, v);
            continue;
        }
        let at = w.at;
        let x = entry_in(row.table, at - 1);
        let part = part_met(at, x);
        let y = entry_in(row.table, part - 1);
        if y.kind <= entries::CONTAINS_ANY {
            let v = flat(row, part);
            w = w.after_part(settles, x, v);
            continue;
        }
        if x.kind < entries::AND {
            w = w.inside_part(x);
            continue;
        }
        if w.rest < 1 {
            w = w.entered(part);
            continue;
        }
        let v = evaluate_by(settles, row, part);
        w = w.after_part(settles, x, v);
    }
}

// The verdict of the condition whose entries end before number `end`, under the version that the table records. One without parts is found out at once; as
// that is called from two places, the compiler leaves it a function of its own, and no level of nesting holds its frame.
pub fn evaluate(row: &Row, end: usize) -> Verdict
    requires ready { Ready row.now.text.now row.now.table.now end }
    ensures { result ≡ verdict_seen (settles_under (recorded_version row.now.table.now)) row.now.text.now row.now.s.now
        row.now.places.now row.now.values.now row.now.action.now (tree_at row.now.table.now end) }
{
    let settled = settles(recorded(row.table));
    let x = entry_in(row.table, end - 1);
    if x.kind <= entries::CONTAINS_ANY {
        let v = flat(row, end);
        return settled_as(settled, v);
    }
    evaluate_by(settled, row, end)
}
