// Compiling: a rule text into the table that is lent, and whether a table begins with what its text compiles to.
#![tactic(auto)]

ghost use Rattle.std.specs.Prelude.{◌≡◌, ◌≤◌, length};
ghost use Rattle.parts.specs.declared.answers.Refusal.{Refusal};
ghost use Rattle.compiling.specs.declared.Unaccepted.TheVariants.{Turned};
ghost use Rattle.compiling.specs.Outcome.{nowhere, found_of, told_at, refused_for, compiled_under, table_under, held_of, begins_of, CompiledInto};

use grammar::Version;
use parts::answers::Refusal;
use places::place_of;
use policies::read_all;
use table::{ENTRY_SIZE, recorded};
use tokens::sizes::MOST_TEXT_BYTES;

// How many bytes of table must be lent for each byte of text.
const TABLE_PER_BYTE: usize = 8;

// The refusal of a number that names no version.
const OTHER_VERSION: u8 = 30;

// How many policies a text has, and how many entries they take in a table.
#[derive(Clone, Copy)]
pub struct TableSize {
    pub policies: usize,
    pub entries: usize,
}

// Why a text is not accepted: by its size or the table's, or at a token.
#[derive(Clone, Copy)]
pub enum Unaccepted {
    Unfit(u8),
    Turned(Refusal),
}

// Where a text is refused: the line and column of the refused token, from 1, and how many bytes it has; zeros where it goes by a size or the version.
#[derive(Clone, Copy)]
pub struct Spot {
    pub line: usize,
    pub column: usize,
    pub length: usize,
}

// What compiling answers: the policies, and the bytes of the table that they use.
#[derive(Clone, Copy)]
pub struct Compiled {
    pub policies: usize,
    pub bytes: usize,
}

// Or the refusal's number, and where.
#[derive(Clone, Copy)]
pub struct Refused {
    pub number: u8,
    pub spot: Spot,
}

// What a text has under a version, where a table of so many bytes is lent; nothing is written.
pub fn recognise(text: &[u8], room: usize, version: Version) -> Result<TableSize, Unaccepted>
    ensures { result ≡ found_of version text.now room }
{
    if MOST_TEXT_BYTES < text.len() {
        return Err(Unaccepted::Unfit(1));
    }
    if room < TABLE_PER_BYTE * text.len() {
        return Err(Unaccepted::Unfit(2));
    }
    match read_all(text, &mut [], &[], version) {
        Err(f) => Err(Unaccepted::Turned(f)),
        Ok(whole) => Ok(TableSize {
            policies: whole.policies,
            entries: whole.entries,
        }),
    }
}

// What is told of a refusal at a token: its number, where the token stands, and its length.
fn told(text: &[u8], f: Refusal) -> Refused
    requires { f.start ≤ length text.now }
    ensures { result ≡ told_at text.now f }
{
    let p = place_of(text, f.start);
    let spot = Spot {
        line: p.line,
        column: p.column,
        length: f.size,
    };
    Refused {
        number: f.number,
        spot,
    }
}

// A refusal that goes by no token has no place.
fn unplaced(number: u8) -> Refused
    ensures { result ≡ record { number = number; spot = nowhere } }
{
    let spot = Spot {
        line: 0,
        column: 0,
        length: 0,
    };
    Refused { number, spot }
}

// What is told of a text that is not accepted.
fn refusal_of(text: &[u8], why: Unaccepted) -> Refused
    requires { (f : Refusal) → why ≡ Turned f → f.start ≤ length text.now }
    ensures { result ≡ refused_for text.now why }
{
    match why {
        Unaccepted::Unfit(number) => unplaced(number),
        Unaccepted::Turned(f) => told(text, f),
    }
}

// Compiles a text into the table under a version. The bytes past those used stay, and a refusal changes nothing.
fn compile_under(version: Version, text: &[u8], table: &mut [u8]) -> Result<Compiled, Refused>
    ensures { (result ≡ compiled_under version text.now (length table.old))
        × (table.new ≡ table_under version text.now table.old) }
{
    match recognise(text, table.len(), version) {
        Err(why) => Err(refusal_of(text, why)),
        Ok(TableSize { policies, entries }) => {
            let _ = read_all(text, table, &[], version);
            Ok(Compiled {
                policies,
                bytes: ENTRY_SIZE * entries,
            })
        }
    }
}

// The same under the version that a number names; any other number is refused before all.
pub fn compile(number: u64, text: &[u8], table: &mut [u8]) -> Result<Compiled, Refused>
    ensures { CompiledInto number text.now table.old table.new result }
{
    match number {
        1 => compile_under(Version::First, text, table),
        2 => compile_under(Version::Second, text, table),
        _ => Err(unplaced(OTHER_VERSION)),
    }
}

// The policies and entries of a text whose table begins with the bytes that it compiles to under the version that the table records.
pub fn held_policies(text: &[u8], table: &[u8]) -> Option<TableSize>
    ensures { result ≡ held_of text.now table.now }
{
    if MOST_TEXT_BYTES < text.len() {
        return None;
    }
    let version = recorded(table);
    match read_all(text, &mut [], table, version) {
        Ok(whole) if whole.same => Some(TableSize {
            policies: whole.policies,
            entries: whole.entries,
        }),
        _ => None,
    }
}

// Whether a text compiles and the table begins with its bytes, under the version that it records.
pub fn begins(text: &[u8], table: &[u8]) -> bool
    ensures { result ≡ begins_of text.now table.now }
{
    held_policies(text, table).is_some()
}
