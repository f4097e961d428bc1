// The row's turn in a walk over the rows of a question: the row is decided, and the walk goes on to the next. Whoever goes over the rows calls it for each.
#![tactic(auto)]

ghost use Rattle.std.specs.Prelude.{◌≡◌, cond, ℕ, ◌<◌, length};
ghost use Rattle.views.specs.Places.{kept_heads, PlacesOf};
ghost use Rattle.meaning.specs.Targets.{Request};
ghost use Rattle.meaning.specs.Decisions.{system_marked};
ghost use Rattle.stored.specs.ReadBack.{policies_at};
ghost use Rattle.kept.specs.Notes.{Underway, notes_size};
ghost use Rattle.turns.specs.Rows.{rows_in};
ghost use Rattle.turns.specs.Turns.{Walked, Somewhere, AtRow, Turned};

use choices::step;
use depths::LOOKS;
use kept::{NOTES, Walk, decision_from};
use meaning::{Decision, Marked};
use questions::sizes::{MOST_CANDIDATES, MOST_COLUMNS};
use slots::KEPT;

// What a turn gives: the row's decision, its mark, the first column in which the next row may choose otherwise, and the mark that is kept for it: what the
// policies say, whoever asks.
#[derive(Clone, Copy)]
pub struct Turn {
    pub d: Decision,
    pub mark: u64,
    pub from: usize,
    pub kept: u64,
}

// The system may do all.
fn unless_system(system: bool, m: Marked) -> Marked
    ensures { result ≡ cond system system_marked m }
{
    if system {
        return Marked {
            d: Decision::System,
            mark: 0,
        };
    }
    m
}

// A row's turn. `looks` has what each policy looks at, `notes` what is kept of the rows before; `choices` and `values` are the row's, and then the next row's.
pub fn take_turn(
    walk: Walk,
    looks: &[u8; LOOKS],
    notes: &mut [u8; NOTES],
    choices: &mut [u8; MOST_COLUMNS],
    values: &mut [usize; MOST_COLUMNS],
    grid: &[[usize; MOST_CANDIDATES]; MOST_COLUMNS],
    ends: &[u8; MOST_COLUMNS],
    text: &[u8],
    table: &[u8],
    s: &[u8],
    places: &[u16; KEPT],
    action: &[u8],
) -> Turn
    requires walked { Walked text.now table.now s.now walk (kept_heads places.now) grid.now ends.now looks.now }
    requires somewhere { Somewhere s.now walk.p grid.now ends.now choices.old values.old }
    requires notes_len { length notes.old ≡ notes_size }
    requires underway { Underway walk (policies_at table.now walk.entries) looks.now }
    requires places_of { PlacesOf s.now walk.p walk.n places.now }
    ensures { (q : Request) (row : ℕ) → row < rows_in s.now walk.p
        → AtRow text.now table.now s.now walk (kept_heads places.now) grid.now ends.now
        looks.now action.now q row choices.old values.old walk.from notes.old walk.mark
        → Turned text.now table.now s.now walk (kept_heads places.now) grid.now ends.now
        looks.now action.now q row result choices.new values.new notes.new }
{
    let decided = decision_from(
        walk, looks, notes, choices, text, table, s, places, values, action,
    );
    let kept = decided.mark;
    let marked = unless_system(walk.system, decided);
    let from = step(grid, ends, choices, values);
    let d = marked.d;
    Turn {
        d,
        mark: marked.mark,
        from,
        kept,
    }
}
