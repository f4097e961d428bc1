// The class of every byte, and what else the token reader asks of a byte: one table.
ghost use Rattle.std.specs.Prelude.{◌≡◌};
ghost use Rattle.tokens.specs.Runs.{is_of};
ghost use Rattle.tokens.specs.Table.{entry_of};

// The sorts of bytes: four of the classes, what a word may go on with, what may stand in a string, and the marks that no second byte makes longer.
#[derive(Clone, Copy)]
pub enum Sort {
    Blanks,
    Marks,
    Digits,
    Letters,
    WordBytes,
    StringBytes,
    LoneMarks,
}

// A bit of an entry for each sort; the token reader asks for some of them in an entry that it has read.
pub const BLANK: u8 = 2;

pub const MARK: u8 = 4;

pub const DIGIT: u8 = 8;

pub const LETTER: u8 = 16;

pub const WORD: u8 = 32;

pub const STRING: u8 = 64;

pub const LONE: u8 = 128;

// By the byte: 0 never, 1 text only, 2 blank, 4 mark, 8 digit, 16 letter, to which the bits of the other sorts are added.
static CLASSES: [u8; 256] = [
    0, 0, 0, 0, 0, 0, 0, 0, 0, 2, 2, 0, 0, 2, 0, 0, 0, 0, 0, 0, 0, 0, 0, 0, 0, 0, 0, 0, 0, 0, 0, 0,
    66, 68, 4, 65, 65, 65, 68, 65, 196, 196, 65, 65, 196, 100, 196, 65, 104, 104, 104, 104, 104,
    104, 104, 104, 104, 104, 65, 196, 68, 68, 68, 65, 65, 112, 112, 112, 112, 112, 112, 112, 112,
    112, 112, 112, 112, 112, 112, 112, 112, 112, 112, 112, 112, 112, 112, 112, 112, 112, 112, 196,
    65, 196, 65, 100, 65, 112, 112, 112, 112, 112, 112, 112, 112, 112, 112, 112, 112, 112, 112,
    112, 112, 112, 112, 112, 112, 112, 112, 112, 112, 112, 112, 196, 68, 196, 65, 0, 65, 65, 65,
    65, 65, 65, 65, 65, 65, 65, 65, 65, 65, 65, 65, 65, 65, 65, 65, 65, 65, 65, 65, 65, 65, 65, 65,
    65, 65, 65, 65, 65, 65, 65, 65, 65, 65, 65, 65, 65, 65, 65, 65, 65, 65, 65, 65, 65, 65, 65, 65,
    65, 65, 65, 65, 65, 65, 65, 65, 65, 65, 65, 65, 65, 65, 65, 65, 65, 65, 65, 65, 65, 65, 65, 65,
    65, 65, 65, 65, 65, 65, 65, 65, 65, 65, 65, 65, 65, 65, 65, 65, 65, 65, 65, 65, 65, 65, 65, 65,
    65, 65, 65, 65, 65, 65, 65, 65, 65, 65, 65, 65, 65, 65, 65, 65, 65, 65, 65, 65, 65, 65, 65, 65,
    65, 65, 65, 65, 65,
];

// What the table has for a byte.
pub fn entry_of(b: u8) -> u8
    ensures { result ≡ entry_of b }
{
    CLASSES[b as usize]
}

// Whether the byte is of the sort.
pub fn is_of(sort: Sort, b: u8) -> bool
    ensures { result ≡ is_of sort b }
{
    let entry = entry_of(b);
    match sort {
        Sort::Blanks => entry & BLANK != 0,
        Sort::Marks => entry & MARK != 0,
        Sort::Digits => entry & DIGIT != 0,
        Sort::Letters => entry & LETTER != 0,
        Sort::WordBytes => entry & WORD != 0,
        Sort::StringBytes => entry & STRING != 0,
        Sort::LoneMarks => entry & LONE != 0,
    }
}
