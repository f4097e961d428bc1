// The patterns of `like`: `*` stands for any run of characters without a colon, `?` for one character but a colon.
#![tactic(auto)]

ghost use Rattle.std.specs.Prelude.{◌≡◌, false, ◌∷◌, ◌<◌, length, drop};
ghost use Rattle.slices.specs.Decides.{Decides};
ghost use Rattle.utf8.specs.Characters.{OnlyAscii, Utf8};
ghost use Rattle.utf8.specs.Reading.{point, points};
ghost use Rattle.patterns.specs.Like.{star, Admits, Matches};
ghost use Rattle.patterns.specs.Steps.{Stepped};

// Whether the pattern's byte x is no `*` and matches the byte c.
fn admits(x: u8, c: u8) -> bool
    ensures { Decides (Admits x c) result }
{
    // by returns: as one expression the hard pairs of bench/ take 9,282 instructions on average, so 6,752, and 7,500 are the most
    if x == c {
        return x != b'*';
    }
    if x == b'?' {
        return c != b':';
    }
    false
}

// Where the character ends that stands at `at`: its first byte says how many it has.
fn character_end(s: &[u8], at: usize) -> usize
    requires { (at < length s.now) × Utf8 (drop at s.now) }
    ensures { Stepped s.now at result }
{
    let n = utf8::known_size(s[at]);
    at + n
}

// The same; a string that is not wide is ASCII.
fn next_character(wide: bool, s: &[u8], at: usize) -> usize
    requires { (at < length s.now) × Utf8 (drop at s.now) × (wide ≡ false → OnlyAscii s.now) }
    ensures { Stepped s.now at result }
{
    if wide { character_end(s, at) } else { at + 1 }
}

// Whether the pattern's character at p is no `*` and matches the string's character at s.
fn admits_character(pattern: &[u8], p: usize, string: &[u8], s: usize) -> bool
    requires { (p < length pattern.now) × Utf8 (drop p pattern.now) × (s < length string.now) × Utf8 (drop s string.now) }
    ensures { Decides (Admits (point (drop p pattern.now)) (point (drop s string.now))) result }
{
    let x = pattern[p];
    let c = string[s];
    if !admits(x, c) {
        return false;
    }
    // a byte of ASCII is the character
    if c <= 0x7F {
        return true;
    }
    if x != c {
        return true;
    }
    let e = character_end(pattern, p);
    let f = character_end(string, s);
    slices::same(&pattern[p..e], &string[s..f])
}

// Whether the string is UTF-8 and the pattern, which is, matches all of it. Most strings are ASCII: that is told once.
pub fn like(pattern: &[u8], string: &[u8]) -> bool
    requires { Utf8 pattern.now }
    ensures { Decides (Utf8 string.now × Matches (points pattern.now) (points string.now)) result }
{
    if utf8::is_ascii(string) {
        like_text(false, pattern, string)
    } else {
        utf8::is_utf8(string) && like_text(true, pattern, string)
    }
}

// Whether the pattern matches the whole string, both being UTF-8; a string that is not wide is ASCII.
fn like_text(wide: bool, pattern: &[u8], string: &[u8]) -> bool
    requires { Utf8 pattern.now × Utf8 string.now × (wide ≡ false → OnlyAscii string.now) }
    ensures { Decides (Matches (points pattern.now) (points string.now)) result }
{
    // Two places that move apart, each by its own character: no iterator has both.
    let mut p = 0;
    let mut s = 0;
    while p < pattern.len() {
        let x = pattern[p];
        if x == b'*' {
            let from = p + 1;
            return after_star(wide, &pattern[from..], &string[s..]);
        }
        if s == string.len() {
            return false;
        }
        if wide {
            if !admits_character(pattern, p, string, s) {
                return false;
            }
            p = character_end(pattern, p);
            s = character_end(string, s);
        } else {
            if !admits(x, string[s]) {
                return false;
            }
            p += 1;
            s += 1;
        }
    }
    s == string.len()
}

// Whether `*` and then the pattern `rest` match the whole string, as in `like_text`. Only the run of the last `*` met is made longer; a string that
// ends too early for that run ends too early for every longer one.
fn after_star(wide: bool, rest: &[u8], string: &[u8]) -> bool
    requires { Utf8 rest.now × Utf8 string.now × (wide ≡ false → OnlyAscii string.now) }
    ensures { Decides (Matches (star ∷ points rest.now) (points string.now)) result }
{
    // The last `*` met stands for what ends at `run`, and the pattern goes on at `from`; p and s are how far that went.
    let mut from = 0;
    let mut run = 0;
    let mut p = 0;
    let mut s = 0;
    loop {
        if p < rest.len() {
            let x = rest[p];
            if x == b'*' {
                p += 1;
                from = p;
                run = s;
                continue;
            }
            if s == string.len() {
                return false;
            }
            if wide {
                if admits_character(rest, p, string, s) {
                    p = character_end(rest, p);
                    s = character_end(string, s);
                    continue;
                }
            } else if admits(x, string[s]) {
                p += 1;
                s += 1;
                continue;
            }
        } else if s == string.len() {
            return true;
        }
        if string[run] == b':' {
            return false;
        }
        run = next_character(wide, string, run);
        p = from;
        s = run;
    }
}
