// The tally: how many rows of a question have each outcome, and how many each policy decides, for one to eight requests, with the sums.
#![tactic(auto)]

mod counting;
mod lent;

ghost use Rattle.std.specs.Prelude.{◌≡◌, cond, ◌≤◌, length, Some};
ghost use Rattle.compiling.specs.Outcome.{held_of, table_size};
ghost use Rattle.questions.specs.Questions.{Question};
ghost use Rattle.questions.specs.Sizes.{most_question_bytes};
ghost use Rattle.tallies.specs.Lent.{requests_of};
ghost use Rattle.tallies.specs.Tallies.{group_count, RequestsTallied, Tallied};

use crate::counting::count_all;
use crate::lent::first_wrong;
use bags::sections::Sections;
use compiling::{TableSize, held_policies};
use questions::question_sections;

// How many counts a tally has: nine groups, one for each of eight requests and the sums.
pub const COUNTS: usize = 612;

// The policies and entries that the table holds, looked at only where a request asks for it.
fn held_for(asked: bool, text: &[u8], table: &[u8]) -> Option<TableSize>
    ensures { result ≡ cond asked (held_of text.now table.now) (Some (table_size 0 0)) }
{
    if asked {
        return held_policies(text, table);
    }
    Some(TableSize {
        policies: 0,
        entries: 0,
    })
}

// A tally of a question, for so many requests: first what may be wrong with one of them, the text and its table.
fn tally_asked(
    text: &[u8],
    table: &[u8],
    s: &[u8],
    p: Sections,
    many: usize,
    requests: &[u8],
    counts: &mut [u32; COUNTS],
) -> u8
    requires question { Question s.now p × (length s.now ≤ most_question_bytes) }
    requires many_le_group_count { many ≤ group_count }
    ensures { RequestsTallied text.now table.now s.now p (requests_of many requests.now)
        counts.old result counts.new }
{
    let first = first_wrong(many, requests);
    match held_for(first.asks, text, table) {
        None => 20,
        Some(rules) => {
            if first.refusal == 0 {
                count_all(rules, text, table, s, p, many, requests, counts);
            }
            first.refusal
        }
    }
}

// The tally of so many requests over one question: nine groups of 68 counts, one for each of eight requests and the sums. Answers the refusal's number, 0 where
// there is none.
pub fn tally(
    text: &[u8],
    table: &[u8],
    question: &[u8],
    many: usize,
    requests: &[u8],
    counts: &mut [u32; COUNTS],
) -> u8
    ensures { Tallied text.now table.now question.now many requests.now counts.old result
        counts.new }
{
    if (many == 0) | (8 < many) {
        return 27;
    }
    match question_sections(question) {
        None => 24,
        Some(p) => tally_asked(text, table, question, p, many, requests, counts),
    }
}
