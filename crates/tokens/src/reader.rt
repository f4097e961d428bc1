// What the token reader answers; its code is in the crate token_reader.
ghost use Rattle.std.specs.Prelude.{◌≡◌, ◌+◌, ◌<◌, ◌^◌};
ghost use Rattle.tokens.specs.Tokens.{token, sized};

use crate::kinds;

// A token, or the refusal of one, from `start` up to `end`; the module `kinds` has the kinds.
#[derive(Clone, Copy)]
pub struct Token {
    pub kind: u8,
    pub start: usize,
    pub end: usize,
}

impl Token {
    // The token, or the refusal, of the one byte at `start`.
    pub fn one_byte(kind: u8, start: usize) -> Token
        requires { start + 1 < 2 ^ 64 }
        ensures { result ≡ token kind start (start + 1) }
    {
        Token {
            kind,
            start,
            end: start + 1,
        }
    }

    // The token, or refusal 6 where its size is more than `most`.
    pub fn within(self, size: usize, most: usize) -> Token
        ensures { result ≡ sized self.kind most size self.start self.end }
    {
        if size <= most {
            self
        } else {
            Token {
                kind: kinds::TOO_LONG,
                ..self
            }
        }
    }
}
