// The lines of a request's file: where one ends, and where the next starts.
#![tactic(auto)]

ghost use Rattle.std.specs.Prelude.{◌≤◌, length};
ghost use Rattle.request_lines.specs.Lines.{EndsAt, GoesOnAt};

// Where the line that starts at `at` ends: at its line feed, or where the bytes end.
pub fn line_end(s: &[u8], at: usize) -> usize
    requires { at ≤ length s.now }
    ensures { EndsAt s.now at result }
{
    let rest = &s[at..];
    at + rest.iter().position(|b| *b == b'\n').unwrap_or(rest.len())
}

// Where the next line starts: past the line feed, if there is one.
pub fn line_after(s: &[u8], end: usize) -> usize
    requires { end ≤ length s.now }
    ensures { GoesOnAt s.now end result }
{
    if end < s.len() { end + 1 } else { end }
}
