// The reader of a text: how far it has read, how a token is refused, and what must stand after a thing that was read.
ghost use Rattle.std.specs.Prelude.{◌≡◌, ◌<◌, ◌≤◌, ◌^◌, length};
ghost use Rattle.tokens.specs.Tokens.{Reads};
ghost use Rattle.table.specs.Entries.{entry};
ghost use Rattle.parts.specs.Answers.{turned_away, passed, PutBy, Expected};

use crate::refusals;
use table::{Entry, append};
use token_reader::next_token;
use tokens::kinds;
use tokens::reader::Token;

// A refusal's number, and the place and the size of the token that is refused.
#[derive(Clone, Copy)]
pub struct Refusal {
    pub number: u8,
    pub start: usize,
    pub size: usize,
}

// A text while it is read: the token that stands next; the table that is written, and the number of its next entry; and the table that is seen, with which the entries are compared, and whether it
// has all entries before that one.
#[derive(Drop)]
pub struct Reader<'a> {
    pub text: &'a [u8],
    pub table: &'a mut [u8],
    pub seen: &'a [u8],
    pub next: Token,
    pub free: usize,
    pub same: bool,
}

impl<'a> Reader<'a> {
    // On to the token after the one that stands next.
    pub fn pass(&mut self)
        requires { self.old.next.end ≤ length self.old.text.now }
        ensures { self.new ≡ passed self.old }
    {
        self.next = next_token(self.text, self.next.end);
    }

    // One entry more, of this kind and with these fields: it is put into the table, and compared with what is seen there.
    pub fn put(&mut self, kind: u8, first: usize, second: usize)
        requires { self.old.free < 2 ^ 60 }
        ensures { PutBy (entry kind first second) self.old self.new }
    {
        let x = Entry {
            kind,
            first,
            second,
        };
        self.same = append(self.table, self.seen, self.free, self.same, x);
        self.free += 1;
    }

    // The same of an entry that was made.
    pub fn put_entry(&mut self, x: Entry)
        requires { self.old.free < 2 ^ 60 }
        ensures { PutBy x self.old self.new }
    {
        self.put(x.kind, x.first, x.second);
    }

    // A token of a kind must stand next, and is passed; any other is refused.
    pub fn expect(&mut self, kind: u8) -> Result<(), u8>
        requires { Reads self.old.text.now 0 self.old.next }
        ensures { Expected kind self.old self.new result }
    {
        if self.next.kind != kind {
            return Err(refusals::NOT_ADMITTED);
        }
        self.pass();
        Ok(())
    }
}

// The refusal of a token: by its own number where it is no token; the end of the text is not admitted.
pub fn turned_away(text: &[u8], t: Token, number: u8) -> Refusal
    ensures { result ≡ turned_away (length text.now) number t }
{
    if t.kind == kinds::END_OF_TEXT {
        return Refusal {
            number: refusals::NOT_ADMITTED,
            start: text.len(),
            size: 0,
        };
    }
    Refusal {
        number: if t.kind <= kinds::TOO_LONG {
            t.kind
        } else {
            number
        },
        start: t.start,
        size: t.end.saturating_sub(t.start),
    }
}
