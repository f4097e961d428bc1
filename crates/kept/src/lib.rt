// Which policies are satisfied in a row, kept from row to row: only those are met to which a changed column can matter, and evaluated where a choice has no
// note yet.
#![tactic(auto)]

pub mod late;

ghost use Rattle.std.specs.Prelude.{◌≡◌, Bool, false, cond, ◌&&◌, ℕ, ◌+◌, ◌^◌, ◌≤◌, ◌<◌, leb, ltb, length, get_or};
ghost use Rattle.tokens.specs.Sizes.{most_policies};
ghost use Rattle.table.specs.Recorded.{recorded};
ghost use Rattle.stored.specs.ReadBack.{policy_at, policies_at};
ghost use Rattle.stored.specs.Ready.{Last};
ghost use Rattle.questions.specs.Sizes.{most_candidates};
ghost use Rattle.views.specs.Rows.{RowStands};
ghost use Rattle.views.specs.Places.{kept_heads, placed_view, RowAt, PlacesOf};
ghost use Rattle.placing.specs.Said.{policy_words};
ghost use Rattle.meaning.specs.Values.{with_action};
ghost use Rattle.meaning.specs.Targets.{Request};
ghost use Rattle.meaning.specs.Decisions.{under, condition_holds};
ghost use Rattle.depths.specs.Looks.{Depths, end_at, policy_ending, LastEnding, Ends};
ghost use Rattle.kept.specs.Notes.{Underway, RowSays, ChosenThere, Met, Kept, DecidedFrom, notes_size};

use bags::sections::Sections;
use deciding::row::condition_holds;
use depths::{AIMS, LOOKS, end_of, wide};
use marks::{by_marks, lowest};
use meaning::Marked;
use operands::Row;
use questions::sizes::{MOST_CANDIDATES, MOST_COLUMNS};
use slots::KEPT;
use table::{Entry, entry_at};
use tokens::sizes::MOST_POLICIES;

// How many notes there are: each policy has one for each choice that a column can have.
pub const NOTES: usize = MOST_POLICIES * MOST_CANDIDATES;

// A walk over the rows of a question, in numbers: whose rows they are, how many policies and entries the table holds, the sections of the base, how many
// columns there are, and the first column in which the row may choose otherwise than the row before; and in marks: the policies to which that column or a
// later one can matter, those that were satisfied in the row before, and the permits.
#[derive(Clone, Copy)]
pub struct Walk {
    pub system: bool,
    pub policies: usize,
    pub entries: usize,
    pub p: Sections,
    pub n: usize,
    pub from: usize,
    pub late: u64,
    pub mark: u64,
    pub permits: u64,
}

// The note that is asked for: of which policy, from 0 on, for which choice in its own column; whether the policy's notes are stale, and whether its
// target matches.
#[derive(Clone, Copy)]
pub struct Note {
    pub i: usize,
    pub choice: u8,
    pub stale: bool,
    pub aimed: bool,
}

// Sets the eight notes from `at` on to 0, where `stale`.
fn forget(stale: bool, notes: &mut [u8; NOTES], at: usize)
    requires most_candidates_bound { at + most_candidates ≤ notes_size }
    requires notes_len { length notes.old ≡ notes_size }
    ensures by_index { (j : ℕ) → get_or notes.new j 0 ≡ cond (stale && (leb at j && ltb j (at + most_candidates))) 0 (get_or notes.old j 0) }
    ensures notes_len_2 { length notes.new ≡ notes_size }
{
    if stale {
        for c in 0..MOST_CANDIDATES {
            notes[at + c] = 0;
        }
    }
}

// The note that says yes, and the one that says no.
fn note_of(hit: bool) -> u8
    ensures { result ≡ cond hit 2 1 }
{
    if hit { 2 } else { 1 }
}

// Whether the policy of which x is the last entry, number end - 1, is satisfied in the row, where it is known whether its target matches.
fn satisfied_where(aimed: bool, row: &Row, end: usize, x: Entry) -> bool
    requires { Last row.now.text.now row.now.table.now end x }
    ensures { result ≡ aimed && condition_holds
        (under (recorded row.now.table.now)
        (with_action row.now.action.now (placed_view row.now.s.now row.now.places.now row.now.values.now)))
        (policy_words row.now.text.now (policy_at row.now.table.now end x)).condition }
{
    aimed && condition_holds(row, end, x)
}

// Whether a policy is satisfied in the row: as its note for this choice says; where it says nothing, or is stale, the policy is met and noted.
fn met(note: Note, notes: &mut [u8; NOTES], looks: &[u8; LOOKS], row: &Row) -> bool
    requires i_lt_most_policies { (note.i < most_policies) × (note.choice < most_candidates) × (length notes.old ≡ notes_size) }
    requires last_ending { LastEnding row.now.text.now row.now.table.now (end_at looks.now note.i) }
    ensures by_index { (sat : ℕ → Bool) → sat note.choice ≡ note.aimed && condition_holds
        (under (recorded row.now.table.now)
        (with_action row.now.action.now (placed_view row.now.s.now row.now.places.now row.now.values.now)))
        (policy_words row.now.text.now (policy_ending row.now.table.now (end_at looks.now note.i))).condition
        → (note.stale ≡ false → RowSays notes.old note.i sat) → Met sat note.i note.choice notes.old result notes.new }
    ensures notes_len { length notes.new ≡ notes_size }
{
    let first = MOST_CANDIDATES * note.i;
    forget(note.stale, notes, first);
    let at = first + note.choice as usize;
    let said = notes[at];
    if said != 0 {
        return said == 2;
    }
    let end = end_of(looks, note.i);
    let x = entry_at(row.table, end - 1);
    let hit = satisfied_where(note.aimed, row, end, x);
    notes[at] = note_of(hit);
    hit
}

// Bit i of a mark.
fn bit_at(i: usize) -> u64
    requires { i < most_policies }
    ensures { result ≡ 2 ^ i }
{
    1 << i
}

// A bit, or none.
fn bit_if(b: bool, bit: u64) -> u64
    ensures { result ≡ cond b bit 0 }
{
    if b { bit } else { 0 }
}

// What the policies decide in the row, with their mark. Notes and mark are those of a row that chooses alike in the columns before number `from` of the
// walk, and are then this row's; `looks` has what each policy looks at. Only the policies are met to which that column or a later one can matter: the others
// say what they said.
pub fn decision_from(
    walk: Walk,
    looks: &[u8; LOOKS],
    notes: &mut [u8; NOTES],
    choices: &[u8; MOST_COLUMNS],
    text: &[u8],
    table: &[u8],
    s: &[u8],
    places: &[u16; KEPT],
    values: &[usize; MOST_COLUMNS],
    action: &[u8],
) -> Marked
    requires policies_value { walk.policies ≡ length (policies_at table.now walk.entries) }
    requires policies_le_most_policies { walk.policies ≤ most_policies }
    requires row_stands { RowStands s.now walk.p walk.n (kept_heads places.now) values.now }
    requires places_of { PlacesOf s.now walk.p walk.n places.now }
    requires chosen_there { ChosenThere s.now walk.p walk.n choices.now values.now }
    requires depths { Depths text.now s.now walk.n (kept_heads places.now) (policies_at table.now walk.entries) looks.now }
    requires ends { Ends text.now table.now (policies_at table.now walk.entries) looks.now }
    requires underway { Underway walk (policies_at table.now walk.entries) looks.now }
    requires notes_len { length notes.old ≡ notes_size }
    ensures { (q : Request) → q.action ≡ action.now
        → Kept (recorded table.now) text.now s.now walk (kept_heads places.now) q
        (policies_at table.now walk.entries) looks.now values.now walk.from notes.old walk.mark
        → DecidedFrom (recorded table.now) text.now s.now walk.p walk.n (kept_heads places.now) q
        (policies_at table.now walk.entries) looks.now values.now result notes.new }
{
    let row = Row {
        text,
        table,
        s,
        places,
        values,
        action,
    };
    let again = walk.mark & walk.late;
    let mut left = walk.late;
    let mut mark = walk.mark - again;
    while 0 < left {
        let number = lowest(left);
        let i = number - 1;
        let column = wide(looks[i]);
        let choice = choices[column];
        let other = wide(looks[MOST_POLICIES + i]);
        let aim = looks[AIMS + i];
        let note = Note {
            i,
            choice,
            stale: walk.from < other,
            aimed: aim == 1,
        };
        let satisfied = met(note, notes, looks, &row);
        let bit = bit_at(i);
        mark += bit_if(satisfied, bit);
        left -= bit;
    }
    let d = by_marks(mark, walk.permits);
    Marked { d, mark }
}
