// How a condition is met from its last entry on: what is left of it after each part, and what its verdict becomes. The loop that takes these steps is in evaluating.
// Kinds of entries have names (table::entries, docs/TABLE.md): from AND on they join parts.
#![tactic(auto)]

ghost use Rattle.std.specs.Prelude.{◌≡◌, ◌<◌};
ghost use Rattle.meaning.specs.Conditions.{settles as settles_under, settled_if};
ghost use Rattle.ways.specs.Ways.{first_met, part_met, ended_by, gone_on, entered_at, come_back, after_yes, after_no, after_missing, after_part, inside_part};

use grammar::Version;
use meaning::Verdict;
use table::{Entry, entries};

// What is left to be met. It ends before entry number `at`; its Yes becomes `yes`, its No becomes `no`, and its Missing stays Missing. Where `at` is
// 0 nothing is left, and it became `no`. Where `rest` is not 0, that is the verdict of the part that is met first of what ends before `rest`, whose
// Yes becomes `held` and whose No becomes `kept`.
#[derive(Clone, Copy)]
pub struct Way {
    pub at: usize,
    pub yes: Verdict,
    pub no: Verdict,
    pub rest: usize,
    pub held: Verdict,
    pub kept: Verdict,
}

// Where the part ends that is met first: what `if` asks, and the right part of `&&` and `||`.
fn first_met(at: usize, x: Entry) -> usize
    requires { 0 < at }
    ensures { result ≡ first_met at x }
{
    if x.kind == entries::IF {
        x.first
    } else {
        at - 1
    }
}

// Where the part ends that is met first, or all that is left, where no `if`, `&&` or `||` joins parts.
pub fn part_met(at: usize, x: Entry) -> usize
    requires { 0 < at }
    ensures { result ≡ part_met at x }
{
    if x.kind < entries::AND {
        at
    } else {
        first_met(at, x)
    }
}

impl Way {
    // What is left becomes k.
    fn ended_by(self, k: Verdict) -> Way
        ensures { result ≡ ended_by self k }
    {
        Way {
            at: 0,
            no: k,
            ..self
        }
    }

    // What ends before `at` is left, and its Yes and No become these.
    fn gone_on(self, at: usize, yes: Verdict, no: Verdict) -> Way
        ensures { result ≡ gone_on self at yes no }
    {
        Way {
            at,
            yes,
            no,
            ..self
        }
    }

    // The part that is met first is left, and ends before `part`; the rest is kept for then.
    pub fn entered(self, part: usize) -> Way
        ensures { result ≡ entered_at self part }
    {
        Way {
            at: part,
            yes: Verdict::Yes,
            no: Verdict::No,
            rest: self.at,
            held: self.yes,
            kept: self.no,
        }
    }

    // What was kept is left.
    pub fn come_back(self) -> Way
        ensures { result ≡ come_back self }
    {
        Way {
            at: self.rest,
            yes: self.held,
            no: self.kept,
            rest: 0,
            held: Verdict::Yes,
            kept: Verdict::Yes,
        }
    }

    // What is left after a Yes of the part that is met first. It stops `||` where nothing before it can be Missing.
    fn after_yes(self, settles: bool, x: Entry) -> Way
        ensures { result ≡ after_yes settles self x }
    {
        if x.kind == entries::AND {
            return self.gone_on(x.first, self.yes, self.no);
        }
        if x.kind == entries::IF {
            return self.gone_on(x.second, self.yes, self.no);
        }
        if (x.kind == entries::OR) & !settles {
            return self.gone_on(x.first, self.yes, self.yes);
        }
        self.ended_by(self.yes)
    }

    // The same after a No, which stops `&&` so.
    fn after_no(self, settles: bool, x: Entry) -> Way
        requires { 0 < self.at }
        ensures { result ≡ after_no settles self x }
    {
        if x.kind == entries::OR {
            return self.gone_on(x.first, self.yes, self.no);
        }
        if x.kind == entries::IF {
            return self.gone_on(self.at - 1, self.yes, self.no);
        }
        if (x.kind == entries::AND) & !settles {
            return self.gone_on(x.first, self.no, self.no);
        }
        self.ended_by(self.no)
    }

    // The same after a Missing, which counts as a No where `settles`.
    fn after_missing(self, settles: bool, x: Entry) -> Way
        requires { 0 < self.at }
        ensures { result ≡ after_missing settles self x }
    {
        if settles {
            return self.after_no(settles, x);
        }
        match x.kind {
            entries::OR => self.gone_on(x.first, self.yes, Verdict::Missing),
            entries::AND => self.gone_on(x.first, Verdict::Missing, self.no),
            _ => self.ended_by(Verdict::Missing),
        }
    }

    // The same after the verdict v. No stands first: a decision takes a hundredth fewer instructions so.
    pub fn after_part(self, settles: bool, x: Entry, v: Verdict) -> Way
        requires { 0 < self.at }
        ensures { result ≡ after_part settles self x v }
    {
        match v {
            Verdict::No => self.after_no(settles, x),
            Verdict::Yes => self.after_yes(settles, x),
            Verdict::Missing => self.after_missing(settles, x),
        }
    }

    // What is left inside `!` or brackets.
    pub fn inside_part(self, x: Entry) -> Way
        requires { 0 < self.at }
        ensures { result ≡ inside_part self x }
    {
        if x.kind == entries::NOT {
            self.gone_on(self.at - 1, self.no, self.yes)
        } else {
            self.gone_on(self.at - 1, self.yes, self.no)
        }
    }
}

// Whether an absent attribute makes an operator false under a version.
pub fn settles(version: Version) -> bool
    ensures { result ≡ settles_under version }
{
    match version {
        Version::First => true,
        Version::Second => false,
    }
}

// What an operator's verdict counts as: a Missing as a No where `settles`.
pub fn settled_as(settles: bool, v: Verdict) -> Verdict
    ensures { result ≡ settled_if settles v }
{
    match v {
        Verdict::Missing => if settles { Verdict::No } else { v },
        _ => v,
    }
}
