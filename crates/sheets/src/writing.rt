// Writes a page: each row takes its turn, and the listed ones are put one after the other while they fit.
ghost use Rattle.stored.specs.ReadBack.{policies_at};
ghost use Rattle.targets.specs.Matching.{request};
ghost use Rattle.views.specs.Places.{kept_heads, PlacesOf};
ghost use Rattle.pages.specs.Listing.{PageWritten};
ghost use Rattle.placing.specs.Said.{words_of};
ghost use Rattle.meaning.specs.Targets.{Request};
ghost use Rattle.table.specs.Recorded.{recorded};
ghost use Rattle.sheets.specs.Sheets.{decision_at, row_mark};
ghost use Rattle.sheets.specs.Asked.{Asked, RulesFor, RowsAsked, WalkFor, WalkForSome};

use bags::sections::Sections;
use choices::{choices_of, lasts};
use depths::{LOOKS, looks};
use kept::late::{effects, lates};
use kept::{NOTES, Walk};
use listing::{is_allowed, put_row};
use pages::{Page, ROW_SIZE};
use questions::grid::{heads, places};
use questions::sizes::{MOST_CANDIDATES, MOST_COLUMNS};
use slots::{KEPT, index_of};
use targets::Types;
use turns::take_turn;
use views::{chosen, with_columns};

// The rules for a subject: how many policies and entries the table holds, and none for the system.
#[derive(Clone, Copy)]
pub struct Rules {
    pub system: bool,
    pub policies: usize,
    pub entries: usize,
}

// Writes the listed rows from a start row on over the start of the part, as many as fit; its other bytes stay.
fn write_rows(
    walk: Walk,
    looks: &[u8; LOOKS],
    text: &[u8],
    table: &[u8],
    s: &[u8],
    places: &[u16; KEPT],
    grid: [[usize; MOST_CANDIDATES]; MOST_COLUMNS],
    ends: &[u8; MOST_COLUMNS],
    action: &[u8],
    all: usize,
    start: usize,
    part: &mut [u8],
) -> Page
    requires rows_asked { RowsAsked text.now table.now s.now walk (kept_heads places.now) grid ends.now looks.now all start }
    requires walk_for_some { WalkForSome text.now table.now walk looks.now action.now }
    requires places_of { PlacesOf s.now walk.p walk.n places.now }
    ensures { (q : Request) → WalkFor text.now table.now walk looks.now action.now q
        → PageWritten
        (decision_at (recorded table.now) s.now walk.p q
        (words_of text.now (policies_at table.now walk.entries)))
        (row_mark (recorded table.now) s.now walk.p q
        (words_of text.now (policies_at table.now walk.entries)))
        all start part.old result part.new }
{
    let mut choices = choices_of(ends, start);
    let mut values = chosen(grid, MOST_COLUMNS, &choices);
    let mut notes = [0u8; NOTES];
    let lates = lates(looks, walk.policies);
    let mut from = 0;
    let mut kept = 0;
    let mut written = 0;
    let mut at = 0;
    // (A `for` joins the two ways of the `if` before its next turn, and the proof did not close over the join.)
    let mut row = start;
    while row < all {
        let here = row;
        let late = lates[from];
        let there = Walk {
            from,
            late,
            mark: kept,
            ..walk
        };
        let t = take_turn(
            there,
            looks,
            &mut notes,
            &mut choices,
            &mut values,
            &grid,
            ends,
            text,
            table,
            s,
            places,
            action,
        );
        let d = t.d;
        let mark = t.mark;
        from = t.from;
        kept = t.kept;
        row += 1;
        if is_allowed(d) {
            if part.len() - at < ROW_SIZE {
                return Page {
                    written,
                    next: here,
                };
            }
            put_row(&mut part[at..], here, d, mark);
            at += ROW_SIZE;
            written += 1;
        }
    }
    Page { written, next: all }
}

// The same, from the question alone: the places of its columns and candidates, and what each policy looks at, are found once.
pub fn write_page(
    rules: Rules,
    text: &[u8],
    table: &[u8],
    s: &[u8],
    p: Sections,
    subject: &[u8],
    action: &[u8],
    resource: &[u8],
    types: Types,
    all: usize,
    start: usize,
    part: &mut [u8],
) -> Page
    requires asked { Asked s.now p all start }
    requires rules_for { RulesFor rules text.now table.now subject.now resource.now types }
    ensures { PageWritten
        (decision_at (recorded table.now) s.now p (request subject.now action.now resource.now)
        (words_of text.now (policies_at table.now rules.entries)))
        (row_mark (recorded table.now) s.now p (request subject.now action.now resource.now)
        (words_of text.now (policies_at table.now rules.entries)))
        all start part.old result part.new }
{
    let at = p.end;
    let n = s[at] as usize;
    let first = at + 1;
    let starts = heads(s, first, n);
    let grid = places(s, first, n);
    let ends = lasts(s, n, &starts);
    let looks = looks(
        text,
        table,
        rules.policies,
        rules.entries,
        s,
        n,
        &starts,
        subject,
        action,
        resource,
        types,
    );
    let permits = effects(table, rules.entries);
    let base = index_of(s, p);
    let found = with_columns(base, n, &starts);
    let walk = Walk {
        system: rules.system,
        policies: rules.policies,
        entries: rules.entries,
        p,
        n,
        from: 0,
        late: 0,
        mark: 0,
        permits,
    };
    write_rows(
        walk, &looks, text, table, s, &found, grid, &ends, action, all, start, part,
    )
}
