// Questions: the three sections of a bag, and columns of candidates.
#![tactic(auto)]

ghost use Rattle.std.specs.Prelude.{◌≡◌, cond, None};
ghost use Rattle.bags.specs.Sections.{sections_of};
ghost use Rattle.questions.specs.Questions.{is_question};

use crate::columns::fourth_end;
use crate::sizes::MOST_QUESTION_BYTES;
use bags::sections::{Sections, sections_of};

pub mod columns;
mod elements;
pub mod grid;
pub mod sizes;

// The sections of a question, or None where `s` is none. The count byte of the columns stands at the sections' end.
pub fn question_sections(s: &[u8]) -> Option<Sections>
    ensures { result ≡ cond (is_question s.now) (sections_of s.now) None }
{
    if MOST_QUESTION_BYTES < s.len() {
        return None;
    }
    let p = sections_of(s)?;
    let e = fourth_end(s, p.end)?;
    if e == s.len() { Some(p) } else { None }
}
