// The parts of cases.bin: where each lies.
#![tactic(auto)]

ghost use Rattle.std.specs.Prelude.{◌≤◌, length};
ghost use Rattle.cases.specs.Cases.{PartAt};

// Where a part's bytes start and end.
#[derive(Clone, Copy)]
pub struct CasePart {
    pub start: usize,
    pub end: usize,
}

// The part whose length stands at a place.
pub fn part_at(s: &[u8], at: usize) -> CasePart
    requires { at ≤ length s.now }
    ensures { PartAt s.now at result }
{
    let left = s.len() - at;
    if left < 2 {
        let end = s.len();
        return CasePart { start: end, end };
    }
    let size = usize::from(u16::from_le_bytes([s[at], s[at + 1]]));
    let start = at + 2;
    if left - 2 < size {
        let end = s.len();
        return CasePart { start, end };
    }
    CasePart {
        start,
        end: start + size,
    }
}
