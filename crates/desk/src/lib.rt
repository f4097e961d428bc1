// The desk: every public call in one place, for Rattle and, by crate desk_c, for C. An answer is a struct whose first field is the refusal's number, 0 where nothing is refused; the rest are document 01's
// numbers and values. No call has a `requires`: a caller is asked nothing that the types do not say. specs/Promises.antt states what is promised of them.
#![tactic(auto)]

ghost use Rattle.std.specs.Prelude.{◌≡◌, Ok};
ghost use Rattle.targets.specs.Matching.{request};
ghost use Rattle.deciding.specs.Answers.{decide_said};
ghost use Rattle.desk.specs.Answers.{begins_says, decided_as, decide_says, lookup_says, string_says, rows_say};
ghost use Rattle.desk.specs.Promises.{CompileAllows, SheetAllows, StringAllows, TallyAllows, LockAllows};

use meaning::{Decision, Marked};
use tallies::COUNTS;

// What compiling answers: the refusal with its line and column and how many bytes its token has, or the policies and the bytes of the table that they use.
#[repr(C)]
#[derive(Clone, Copy)]
pub struct DeskCompiled {
    pub refusal: u32,
    pub line: usize,
    pub column: usize,
    pub length: usize,
    pub policies: usize,
    pub bytes: usize,
}

// What deciding answers: outcome 1 allowed, 2 forbidden, 3 nothing satisfied, 4 system; the policy that decided, 0 where none did; and the mark, of which bit n - 1 is set
// exactly when policy n is satisfied, 0 for the system.
#[repr(C)]
#[derive(Clone, Copy)]
pub struct DeskDecision {
    pub refusal: u32,
    pub outcome: u32,
    pub policy: usize,
    pub mark: u64,
}

// An attribute: kind 0 absent, 1 string, 2 number, 3 flag, 4 list of strings; its number; the place of the byte after its kind byte.
#[repr(C)]
#[derive(Clone, Copy)]
pub struct DeskValue {
    pub refusal: u32,
    pub kind: u32,
    pub number: f64,
    pub place: usize,
}

// Where a string's bytes lie in the bag, and how many they are; 0 and 0 for anything else.
#[repr(C)]
#[derive(Clone, Copy)]
pub struct DeskString {
    pub start: usize,
    pub length: usize,
}

// A page of the sheet: the rows written, and the row to go on with.
#[repr(C)]
#[derive(Clone, Copy)]
pub struct DeskPage {
    pub refusal: u32,
    pub written: usize,
    pub next: usize,
}

// Compiles a text into the table, which records the version: 1 or 2. The bytes past those used stay, and a refusal changes nothing.
pub fn desk_compile(text: &[u8], table: &mut [u8], version: u64) -> DeskCompiled
    ensures { CompileAllows version text.now table.old table.new result }
{
    match compiling::compile(version, text, table) {
        Ok(c) => DeskCompiled {
            refusal: 0, // accepted
            line: 0,
            column: 0,
            length: 0,
            policies: c.policies,
            bytes: c.bytes,
        },
        Err(r) => DeskCompiled {
            refusal: r.number as u32,
            line: r.spot.line,
            column: r.spot.column,
            length: r.spot.length,
            policies: 0,
            bytes: 0,
        },
    }
}

// Whether a text compiles and the table begins with its compiled bytes.
pub fn desk_begins(text: &[u8], table: &[u8]) -> bool
    ensures { result ≡ begins_says text.now table.now }
{
    compiling::begins(text, table)
}

// A decision by its outcome's number, with its policy and its mark.
fn decided(m: Marked) -> DeskDecision
    ensures { result ≡ decided_as (decide_said (Ok m)) }
{
    match m.d {
        Decision::Allowed(policy) => DeskDecision {
            refusal: 0,
            outcome: 1,
            policy,
            mark: m.mark,
        },
        Decision::Forbidden(policy) => DeskDecision {
            refusal: 0,
            outcome: 2,
            policy,
            mark: m.mark,
        },
        Decision::Nothing => DeskDecision {
            refusal: 0,
            outcome: 3,
            policy: 0,
            mark: m.mark,
        },
        Decision::System => DeskDecision {
            refusal: 0,
            outcome: 4,
            policy: 0,
            mark: m.mark,
        },
    }
}

// Decides a request over a bag, by the policies of a text whose table is lent.
pub fn desk_decide(
    text: &[u8],
    table: &[u8],
    bag: &[u8],
    subject: &[u8],
    action: &[u8],
    resource: &[u8],
) -> DeskDecision
    ensures { result ≡ decide_says text.now table.now bag.now
        (request subject.now action.now resource.now) }
{
    match deciding::decide(text, table, bag, subject, action, resource) {
        Ok(m) => decided(m),
        Err(number) => DeskDecision {
            refusal: number as u32,
            outcome: 0,
            policy: 0,
            mark: 0,
        },
    }
}

// An attribute's kind, number and place. Root byte 1 is principal, 2 resource, 3 env.
pub fn desk_lookup(bag: &[u8], root: u8, path: &[u8]) -> DeskValue
    ensures { result ≡ lookup_says bag.now root path.now }
{
    match lookups::lookup(bag, root, path) {
        Ok(v) => DeskValue {
            refusal: 0,
            kind: v.kind as u32,
            number: v.number,
            place: v.place,
        },
        Err(number) => DeskValue {
            refusal: number as u32,
            kind: 0,
            number: 0.0,
            place: 0,
        },
    }
}

// Where the bytes of a string attribute lie, for callers that cannot take a part of the bag.
pub fn desk_string(bag: &[u8], root: u8, path: &[u8]) -> DeskString
    ensures { result ≡ string_says bag.now root path.now }
{
    let p = lookups::string_place(bag, root, path);
    DeskString {
        start: p.start,
        length: p.length,
    }
}

// The bytes of a string attribute, as a part of the caller's bag; an empty part for anything else.
pub fn string_part<'a>(bag: &'a [u8], root: u8, path: &[u8]) -> &'a [u8]
    ensures { StringAllows bag.entry root path.now result }
{
    lookups::string_part(bag, root, path)
}

// A page of the sheet from a start row on, written into the part of the lent sheet from byte `at` on. All other bytes stay, and a refusal changes nothing.
pub fn desk_sheet(
    text: &[u8],
    table: &[u8],
    question: &[u8],
    subject: &[u8],
    action: &[u8],
    resource: &[u8],
    start: usize,
    sheet: &mut [u8],
    at: usize,
) -> DeskPage
    ensures { SheetAllows text.now table.now question.now
        (request subject.now action.now resource.now) start sheet.old at sheet.new result }
{
    match sheets::sheet(
        text, table, question, subject, action, resource, start, sheet, at,
    ) {
        Ok(page) => DeskPage {
            refusal: 0,
            written: page.written,
            next: page.next,
        },
        Err(number) => DeskPage {
            refusal: number as u32,
            written: 0,
            next: 0,
        },
    }
}

// How many rows a question has, and 0 where the bytes are none.
pub fn desk_rows(question: &[u8]) -> usize
    ensures { result ≡ rows_say question.now }
{
    sheets::row_count(question)
}

// The tally of so many requests over one question. `requests` has subject, action and resource of each, each behind a length byte. `counts` has nine groups of 68
// numbers, one for each of eight requests and the sums: the rows of outcome 1 to 4, then those that policy 1 to 64 decides. Answers the refusal's number, 0 where
// nothing is refused; a refusal changes nothing.
pub fn desk_tally(
    text: &[u8],
    table: &[u8],
    question: &[u8],
    many: usize,
    requests: &[u8],
    counts: &mut [u32; COUNTS],
) -> u32
    ensures { TallyAllows text.now table.now question.now many requests.now counts.old
        counts.new result }
{
    tallies::tally(text, table, question, many, requests, counts) as u32
}

// What writing a lock's permit answers: the permit's length.
#[repr(C)]
#[derive(Clone, Copy)]
pub struct DeskLock {
    pub refusal: u32,
    pub length: usize,
}

// Writes the permit that a lock says over the start of the room. The bytes past it stay, and a refusal changes nothing.
pub fn desk_lock(
    vocabulary: &[u8],
    lock: &[u8],
    actions: &[u8],
    resource: &[u8],
    room: &mut [u8],
) -> DeskLock
    ensures { LockAllows vocabulary.now lock.now actions.now resource.now
        room.old room.new result }
{
    match locking::lock(vocabulary, lock, actions, resource, room) {
        Ok(length) => DeskLock { refusal: 0, length },
        Err(number) => DeskLock {
            refusal: number as u32,
            length: 0,
        },
    }
}
