// UTF-8 by RFC 3629: the character that stands at a place, and whether bytes are characters only.
#![tactic(auto)]

ghost use Rattle.std.specs.Prelude.{◌≡◌, ◌+◌, ◌<◌, length, get_or, drop};
ghost use Rattle.slices.specs.Decides.{Decides};
ghost use Rattle.utf8.specs.Characters.{OnlyAscii, Utf8};
ghost use Rattle.utf8.specs.Reading.{bytes_by_first, may_stand_second, goes_on_character, followed, width};

// How many bytes a character has that begins with x; 0: none does, as in `bytes_by_first`, which the clause names.
#[tactic(auto, unfolding(crate::specs::Reading::bytes_by_first))]
fn size_by_first(x: u8) -> usize
    ensures { result ≡ bytes_by_first x }
{
    match x {
        0x00..=0x7F => 1,
        0xC2..=0xDF => 2,
        0xE0..=0xEF => 3,
        0xF0..=0xF4 => 4,
        _ => 0,
    }
}

// The same, where a character begins with x.
#[tactic(auto, unfolding(crate::specs::Reading::bytes_by_first))]
pub fn known_size(x: u8) -> usize
    requires { 0 < bytes_by_first x }
    ensures { result ≡ bytes_by_first x }
{
    match x {
        0x00..=0x7F => 1,
        0x80..=0xDF => 2,
        0xE0..=0xEF => 3,
        _ => 4,
    }
}

// Whether y may stand second in a character of two bytes or more that begins with x.
#[tactic(auto, unfolding(crate::specs::Reading::may_stand_second, crate::specs::Reading::lowest_second, crate::specs::Reading::highest_second))]
fn may_follow(x: u8, y: u8) -> bool
    ensures { result ≡ may_stand_second x y }
{
    match x {
        0xE0 => (0xA0..=0xBF).contains(&y),
        0xED => (0x80..=0x9F).contains(&y),
        0xF0 => (0x90..=0xBF).contains(&y),
        0xF4 => (0x80..=0x8F).contains(&y),
        _ => (0x80..=0xBF).contains(&y),
    }
}

// Whether y goes on a character: whether it may stand third or fourth in one.
#[tactic(auto, unfolding(crate::specs::Reading::goes_on_character))]
pub fn goes_on(y: u8) -> bool
    ensures { result ≡ goes_on_character y }
{
    (0x80..=0xBF).contains(&y)
}

// The byte at a place; 0 past the end, which goes on no character.
fn byte_in(s: &[u8], j: usize) -> u8
    ensures { result ≡ get_or s.now j 0 }
{
    s.get(j).copied().unwrap_or(0)
}

// Whether the first of k bytes, x, is followed by what may follow it.
#[tactic(auto, unfolding(crate::specs::Reading::followed))]
fn is_followed(k: usize, x: u8, rest: &[u8]) -> bool
    ensures { result ≡ followed k x rest.now }
{
    k <= 1
        || may_follow(x, byte_in(rest, 0))
            && (k <= 2 || goes_on(byte_in(rest, 1)) && (k <= 3 || goes_on(byte_in(rest, 2))))
}

// As `character`, where a byte stands: by its ranges.
fn longer(s: &[u8], at: usize) -> usize
    requires { at < length s.now }
    ensures { result ≡ width (drop at s.now) }
{
    let x = s[at];
    let k = size_by_first(x);
    if is_followed(k, x, &s[at + 1..]) {
        k
    } else {
        0
    }
}

// How many bytes the character has that stands at `at`, 1 to 4; 0: none stands there, since the clause's `width` is a number.
pub fn character(s: &[u8], at: usize) -> usize
    ensures { result ≡ width (drop at s.now) }
{
    if s.len() <= at {
        return 0;
    }
    if s[at] <= 0x7F {
        return 1;
    }
    longer(s, at)
}

// Whether no byte is above 0x7F.
pub fn is_ascii(s: &[u8]) -> bool
    ensures { Decides (OnlyAscii s.now) result }
{
    s.is_ascii()
}

// Whether the bytes are characters only. Four bytes of ASCII are passed at once.
pub fn is_utf8(s: &[u8]) -> bool
    ensures { Decides (Utf8 s.now) result }
{
    let mut i = 0;
    while i < s.len() {
        // Four put together by hand: std's `is_ascii` is a call, and tests fewer than eight bytes one at a time.
        if 4 <= s.len() - i && (s[i] | s[i + 1] | s[i + 2] | s[i + 3]) <= 0x7F {
            i += 4;
            continue;
        }
        let n = character(s, i);
        if n == 0 {
            return false;
        }
        i += n;
    }
    true
}
