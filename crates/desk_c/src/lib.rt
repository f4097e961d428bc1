// The desk for C: each call of crate desk that C makes, under the same name and with the same clauses. A crate is a library or a static library, not both: Rattle calls crate desk,
// C calls this one. Nothing is decided here.
#![tactic(auto)]

ghost use Rattle.std.specs.Prelude.{◌≡◌};
ghost use Rattle.targets.specs.Matching.{request};
ghost use Rattle.desk.specs.Answers.{begins_says, decide_says, lookup_says, string_says, rows_say};
ghost use Rattle.desk.specs.Promises.{CompileAllows, SheetAllows, TallyAllows, LockAllows};

use desk::{DeskCompiled, DeskDecision, DeskLock, DeskPage, DeskString, DeskValue};
use tallies::COUNTS;

// Compiles a text into the table, which records the version: 1 or 2. The bytes past those used stay, and a refusal changes nothing.
#[unsafe(no_mangle)]
pub extern "C" fn desk_compile(text: &[u8], table: &mut [u8], version: u64) -> DeskCompiled
    ensures { CompileAllows version text.now table.old table.new result }
{
    desk::desk_compile(text, table, version)
}

// Whether a text compiles and the table begins with its compiled bytes.
#[unsafe(no_mangle)]
pub extern "C" fn desk_begins(text: &[u8], table: &[u8]) -> bool
    ensures { result ≡ begins_says text.now table.now }
{
    desk::desk_begins(text, table)
}

// Decides a request over a bag, by the policies of a text whose table is lent.
#[unsafe(no_mangle)]
pub extern "C" fn desk_decide(
    text: &[u8],
    table: &[u8],
    bag: &[u8],
    subject: &[u8],
    action: &[u8],
    resource: &[u8],
) -> DeskDecision
    ensures { result ≡ decide_says text.now table.now bag.now
        (request subject.now action.now resource.now) }
{
    desk::desk_decide(text, table, bag, subject, action, resource)
}

// An attribute's kind, number and place. Root byte 1 is principal, 2 resource, 3 env.
#[unsafe(no_mangle)]
pub extern "C" fn desk_lookup(bag: &[u8], root: u8, path: &[u8]) -> DeskValue
    ensures { result ≡ lookup_says bag.now root path.now }
{
    desk::desk_lookup(bag, root, path)
}

// Where the bytes of a string attribute lie, for callers that cannot take a part of the bag.
#[unsafe(no_mangle)]
pub extern "C" fn desk_string(bag: &[u8], root: u8, path: &[u8]) -> DeskString
    ensures { result ≡ string_says bag.now root path.now }
{
    desk::desk_string(bag, root, path)
}

// A page of the sheet from a start row on, written into the part of the lent sheet from byte `at` on. All other bytes stay, and a refusal changes nothing.
#[unsafe(no_mangle)]
pub extern "C" fn desk_sheet(
    text: &[u8],
    table: &[u8],
    question: &[u8],
    subject: &[u8],
    action: &[u8],
    resource: &[u8],
    start: usize,
    sheet: &mut [u8],
    at: usize,
) -> DeskPage
    ensures { SheetAllows text.now table.now question.now
        (request subject.now action.now resource.now) start sheet.old at sheet.new result }
{
    desk::desk_sheet(
        text, table, question, subject, action, resource, start, sheet, at,
    )
}

// How many rows a question has, and 0 where the bytes are none.
#[unsafe(no_mangle)]
pub extern "C" fn desk_rows(question: &[u8]) -> usize
    ensures { result ≡ rows_say question.now }
{
    desk::desk_rows(question)
}

// The tally of so many requests over one question. `requests` has subject, action and resource of each, each behind a length byte. `counts` has nine groups of 68
// numbers, one for each of eight requests and the sums: the rows of outcome 1 to 4, then those that policy 1 to 64 decides. Answers the refusal's number, 0 where
// nothing is refused; a refusal changes nothing.
#[unsafe(no_mangle)]
pub extern "C" fn desk_tally(
    text: &[u8],
    table: &[u8],
    question: &[u8],
    many: usize,
    requests: &[u8],
    counts: &mut [u32; COUNTS],
) -> u32
    ensures { TallyAllows text.now table.now question.now many requests.now counts.old
        counts.new result }
{
    desk::desk_tally(text, table, question, many, requests, counts)
}

// Writes the permit that a lock says over the start of the room. The bytes past it stay, and a refusal changes nothing.
#[unsafe(no_mangle)]
pub extern "C" fn desk_lock(
    vocabulary: &[u8],
    lock: &[u8],
    actions: &[u8],
    resource: &[u8],
    room: &mut [u8],
) -> DeskLock
    ensures { LockAllows vocabulary.now lock.now actions.now resource.now
        room.old room.new result }
{
    desk::desk_lock(vocabulary, lock, actions, resource, room)
}
