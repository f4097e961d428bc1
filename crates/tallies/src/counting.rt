// Counts the rows: each row takes its turn, and is counted by its outcome and by the policy that decides it.
ghost use Rattle.std.specs.Prelude.{◌≡◌, cond, ◌++◌, ◌≤◌, ◌<◌, length, get_or, take, replicate};
ghost use Rattle.questions.specs.Questions.{Question};
ghost use Rattle.questions.specs.Sizes.{most_question_bytes};
ghost use Rattle.views.specs.Places.{kept_heads, PlacesOf};
ghost use Rattle.meaning.specs.Targets.{Request};
ghost use Rattle.targets.specs.Matching.{request};
ghost use Rattle.pages.specs.Tally.{group_size, bumped, counted_in, Countable};
ghost use Rattle.sheets.specs.Sheets.{rows_in};
ghost use Rattle.sheets.specs.Asked.{RowsAsked, WalkFor, WalkForSome};
ghost use Rattle.tallies.specs.Lent.{requests_of};
ghost use Rattle.tallies.specs.Tallies.{group_count, counts_size, form_refusal, first_wrong, groups_of, sum_from, sums_of, with_sums};
ghost use Rattle.tallies.specs.Counted.{RulesHeld, Surveyed, counted_by, group_by, CountsFew};

use crate::COUNTS;
use crate::lent::request_at;
use bags::sections::Sections;
use choices::{choices_of, lasts};
use compiling::TableSize;
use depths::{LOOKS, looks};
use kept::late::{effects, lates};
use kept::{NOTES, Walk};
use meaning::Decision;
use questions::grid::{heads, places, rows};
use questions::sizes::{MOST_CANDIDATES, MOST_COLUMNS};
use slots::{KEPT, index_of};
use targets::Types;
use targets::forms::{is_system, resource_type, subject_type};
use turns::take_turn;
use views::{chosen, with_columns};

// The counts of a group, and those of the eight groups before the sums.
const GROUP: usize = 68;

const EIGHT: usize = 544;

// What is asked: the sections of the question, its columns and its rows, and the rules.
#[derive(Clone, Copy)]
pub struct Asking {
    pub p: Sections,
    pub n: usize,
    pub all: usize,
    pub policies: usize,
    pub entries: usize,
}

// One more at a place.
fn bump(group: &mut [u32], k: usize)
    requires k_in_bounds { k < length group.old }
    requires k_bound { get_or group.old k 0 < 4294967295 }
    ensures { group.new ≡ bumped group.old k }
{
    group[k] += 1;
}

// A row is counted: by its outcome at place 0 to 3, and from place 4 on by the policy that decides it.
fn count_row(group: &mut [u32], d: Decision)
    requires countable { Countable d }
    requires group_len { length group.old ≡ group_size }
    requires counts_few { CountsFew group.old }
    ensures { group.new ≡ counted_in d group.old }
{
    match d {
        Decision::Allowed(n) => {
            bump(group, 0);
            bump(group, 3 + n);
        }
        Decision::Forbidden(n) => {
            bump(group, 1);
            bump(group, 3 + n);
        }
        Decision::Nothing => bump(group, 2),
        Decision::System => bump(group, 3),
    }
}

// Counts all rows into a group of zeros.
fn count_rows(
    walk: Walk,
    looks: &[u8; LOOKS],
    text: &[u8],
    table: &[u8],
    s: &[u8],
    places: &[u16; KEPT],
    grid: &[[usize; MOST_CANDIDATES]; MOST_COLUMNS],
    ends: &[u8; MOST_COLUMNS],
    action: &[u8],
    all: usize,
    group: &mut [u32],
)
    requires rows_asked { RowsAsked text.now table.now s.now walk (kept_heads places.now) grid.now ends.now looks.now all 0 }
    requires walk_for_some { WalkForSome text.now table.now walk looks.now action.now }
    requires group_value { group.old ≡ replicate group_size 0 }
    requires places_of { PlacesOf s.now walk.p walk.n places.now }
    ensures { (q : Request) → WalkFor text.now table.now walk looks.now action.now q
        → group.new ≡ counted_by text.now table.now s.now walk.p walk.entries all q }
{
    let mut choices = choices_of(ends, 0);
    let mut values = chosen(*grid, MOST_COLUMNS, &choices);
    let mut notes = [0u8; NOTES];
    let lates = lates(looks, walk.policies);
    let mut from = 0;
    let mut kept = 0;
    for _ in 0..all {
        let t = take_turn(
            Walk {
                from,
                late: lates[from],
                mark: kept,
                ..walk
            },
            looks,
            &mut notes,
            &mut choices,
            &mut values,
            grid,
            ends,
            text,
            table,
            s,
            places,
            action,
        );
        from = t.from;
        kept = t.kept;
        count_row(group, t.d);
    }
}

// Counts all rows for a request: what each policy looks at is found once. The system has no rules.
fn count_request(
    asking: Asking,
    text: &[u8],
    table: &[u8],
    s: &[u8],
    starts: &[usize; MOST_COLUMNS],
    placed: &[u16; KEPT],
    grid: &[[usize; MOST_CANDIDATES]; MOST_COLUMNS],
    ends: &[u8; MOST_COLUMNS],
    subject: &[u8],
    action: &[u8],
    resource: &[u8],
    group: &mut [u32],
)
    requires surveyed { Surveyed text.now table.now s.now asking starts.now grid.now ends.now }
    requires resource_value { form_refusal (request subject.now action.now resource.now) ≡ 0 }
    requires group_value { group.old ≡ replicate group_size 0 }
    requires places_of { PlacesOf s.now asking.p asking.n placed.now × (kept_heads placed.now ≡ starts.now) }
    ensures { group.new ≡ group_by text.now table.now s.now asking
        (request subject.now action.now resource.now) }
{
    let system = is_system(subject);
    let rules = rules_for(system, asking.policies, asking.entries);
    let types = Types {
        subject: subject_type(subject),
        resource: resource_type(resource),
    };
    let looks = looks(
        text,
        table,
        rules.policies,
        rules.entries,
        s,
        asking.n,
        starts,
        subject,
        action,
        resource,
        types,
    );
    let permits = effects(table, rules.entries);
    let walk = Walk {
        system,
        policies: rules.policies,
        entries: rules.entries,
        p: asking.p,
        n: asking.n,
        from: 0,
        late: 0,
        mark: 0,
        permits,
    };
    count_rows(
        walk, &looks, text, table, s, placed, grid, ends, action, asking.all, group,
    );
}

// The rules for a subject: none for the system.
fn rules_for(system: bool, policies: usize, entries: usize) -> TableSize
    ensures { result ≡ record { policies = cond system 0 policies; entries = cond system 0 entries } }
{
    if system {
        return TableSize {
            policies: 0,
            entries: 0,
        };
    }
    TableSize { policies, entries }
}

// Counts all rows for each request in turn, each into a group of its own.
fn count_requests(
    asking: Asking,
    text: &[u8],
    table: &[u8],
    s: &[u8],
    starts: &[usize; MOST_COLUMNS],
    placed: &[u16; KEPT],
    grid: &[[usize; MOST_CANDIDATES]; MOST_COLUMNS],
    ends: &[u8; MOST_COLUMNS],
    many: usize,
    requests: &[u8],
    counts: &mut [u32],
)
    requires surveyed { Surveyed text.now table.now s.now asking starts.now grid.now ends.now }
    requires many_le_group_count { many ≤ group_count }
    requires requests_value { first_wrong (requests_of many requests.now) ≡ 0 }
    requires counts_value { counts.old ≡ replicate counts_size 0 }
    requires places_of { PlacesOf s.now asking.p asking.n placed.now × (kept_heads placed.now ≡ starts.now) }
    ensures { counts.new ≡ groups_of group_count (group_by text.now table.now s.now asking)
        (requests_of many requests.now) ++ replicate group_size 0 }
{
    let mut at = 0;
    for k in 0..many {
        let spans = request_at(requests, at);
        let start = GROUP * k;
        let end = start + GROUP;
        count_request(
            asking,
            text,
            table,
            s,
            starts,
            placed,
            grid,
            ends,
            &requests[spans.subject.start..spans.subject.end],
            &requests[spans.action.start..spans.action.end],
            &requests[spans.resource.start..spans.resource.end],
            &mut counts[start..end],
        );
        at = spans.resource.end;
    }
}

// The sum of the counts that the eight groups have at a place.
fn sum_at(counts: &[u32], i: usize) -> u32
    requires counts_len { length counts.now ≡ counts_size }
    requires counts_few { CountsFew counts.now }
    requires i_lt_group_size { i < group_size }
    ensures { result ≡ sum_from group_count counts.now i }
{
    let mut sum: u32 = 0;
    let mut at = i;
    for _ in 0..8usize {
        sum += counts[at];
        at += GROUP;
    }
    sum
}

// The last group: the sums.
fn add_up(counts: &mut [u32])
    requires counts_len { length counts.old ≡ counts_size }
    requires counts_few { CountsFew counts.old }
    ensures { counts.new ≡ take 544 counts.old ++ sums_of counts.old }
{
    for i in 0..GROUP {
        let sum = sum_at(counts, i);
        counts[EIGHT + i] = sum;
    }
}

// All counts are 0. (By hand: `fill` says of each element what it is a clone of, and the proof of the whole did not close over that.)
fn clear(counts: &mut [u32])
    requires { length counts.old ≡ counts_size }
    ensures { counts.new ≡ replicate counts_size 0 }
{
    let mut i = 0;
    while i < COUNTS {
        counts[i] = 0;
        i += 1;
    }
}

// The tally of requests that are all accepted: the places of entries, columns and candidates are found once.
pub fn count_all(
    rules: TableSize,
    text: &[u8],
    table: &[u8],
    s: &[u8],
    p: Sections,
    many: usize,
    requests: &[u8],
    counts: &mut [u32],
)
    requires counts_len { length counts.old ≡ counts_size }
    requires question { Question s.now p × (length s.now ≤ most_question_bytes) }
    requires rules_held { RulesHeld text.now table.now rules.policies rules.entries }
    requires many_le_group_count { many ≤ group_count }
    requires requests_value { first_wrong (requests_of many requests.now) ≡ 0 }
    ensures { counts.new ≡ with_sums (groups_of group_count
        (counted_by text.now table.now s.now p rules.entries (rows_in s.now p))
        (requests_of many requests.now)) }
{
    let n = s[p.end] as usize;
    let first = p.end + 1;
    let starts = heads(s, first, n);
    let grid = places(s, first, n);
    let ends = lasts(s, n, &starts);
    let all = rows(s, first, n);
    let asking = Asking {
        p,
        n,
        all,
        policies: rules.policies,
        entries: rules.entries,
    };
    let base = index_of(s, p);
    let placed = with_columns(base, n, &starts);
    clear(counts);
    count_requests(
        asking, text, table, s, &starts, &placed, &grid, &ends, many, requests, counts,
    );
    add_up(counts);
}
