// The sheet: the rows of a question that are answered with yes, a page at a time.
#![tactic(auto)]

mod writing;

ghost use Rattle.std.specs.Prelude.{◌≡◌, false, cond, ◌≤◌};
ghost use Rattle.questions.specs.Sizes.{most_rows};
ghost use Rattle.meaning.specs.Targets.{is_system};
ghost use Rattle.targets.specs.Matching.{request};
ghost use Rattle.questions.specs.Questions.{is_question};
ghost use Rattle.sheets.specs.Sheets.{rows_asked, PartListed, SheetListed};
ghost use Rattle.sheets.specs.Asked.{Asked};

use crate::writing::{Rules, write_page};
use bags::sections::Sections;
use compiling::held_policies;
use pages::{Page, ROW_SIZE};
use questions::grid::rows;
use questions::question_sections;
use targets::Types;
use targets::forms::{is_action, is_system, resource_type, subject_type};

// A page for a subject that is not the system: first what may be wrong with the request, the text and its table.
fn page_for_other(
    text: &[u8],
    table: &[u8],
    s: &[u8],
    p: Sections,
    subject: &[u8],
    action: &[u8],
    resource: &[u8],
    all: usize,
    start: usize,
    part: &mut [u8],
) -> Result<Page, u8>
    requires asked { Asked s.now p all start }
    requires subject_value { is_system subject.now ≡ false }
    ensures { PartListed text.now table.now s.now p
        (request subject.now action.now resource.now) start part.old result part.new }
{
    let subject_type = subject_type(subject);
    if subject_type == 0 {
        return Err(21);
    }
    if !is_action(action) {
        return Err(22);
    }
    let resource_type = resource_type(resource);
    if resource_type == 0 {
        return Err(23);
    }
    let types = Types {
        subject: subject_type,
        resource: resource_type,
    };
    match held_policies(text, table) {
        None => Err(20),
        Some(size) => {
            let rules = Rules {
                system: false,
                policies: size.policies,
                entries: size.entries,
            };
            Ok(write_page(
                rules, text, table, s, p, subject, action, resource, types, all, start, part,
            ))
        }
    }
}

// A page of a question with so many rows, for a start row that it has or that is their number, written over the start of the part.
fn page_for(
    text: &[u8],
    table: &[u8],
    s: &[u8],
    p: Sections,
    subject: &[u8],
    action: &[u8],
    resource: &[u8],
    all: usize,
    start: usize,
    part: &mut [u8],
) -> Result<Page, u8>
    requires asked { Asked s.now p all start }
    ensures { PartListed text.now table.now s.now p
        (request subject.now action.now resource.now) start part.old result part.new }
{
    if is_system(subject) {
        let rules = Rules {
            system: true,
            policies: 0,
            entries: 0,
        };
        let types = Types {
            subject: 0,
            resource: 0,
        };
        return Ok(write_page(
            rules, text, table, s, p, subject, action, resource, types, all, start, part,
        ));
    }
    page_for_other(
        text, table, s, p, subject, action, resource, all, start, part,
    )
}

// A page of the sheet, written into the part of the lent sheet from byte `at` on. All other bytes stay, and a refusal changes nothing.
pub fn sheet(
    text: &[u8],
    table: &[u8],
    question: &[u8],
    subject: &[u8],
    action: &[u8],
    resource: &[u8],
    start: usize,
    sheet: &mut [u8],
    at: usize,
) -> Result<Page, u8>
    ensures { SheetListed text.now table.now question.now
        (request subject.now action.now resource.now) start sheet.old at result sheet.new }
{
    if sheet.len() < at {
        return Err(25);
    }
    // no room for the bytes of a row
    if sheet.len() - at < ROW_SIZE {
        return Err(25);
    }
    match question_sections(question) {
        None => Err(24),
        Some(p) => {
            let end = p.end;
            let n = question[end] as usize;
            let all = rows(question, end + 1, n);
            if all < start {
                return Err(26);
            }
            page_for(
                text,
                table,
                question,
                p,
                subject,
                action,
                resource,
                all,
                start,
                &mut sheet[at..],
            )
        }
    }
}

// How many rows a question has, and 0 where it is none.
pub fn row_count(question: &[u8]) -> usize
    ensures is { result ≡ cond (is_question question.now) (rows_asked question.now) 0 }
    ensures few { result ≤ most_rows }
{
    match question_sections(question) {
        None => 0,
        Some(p) => {
            let end = p.end;
            let n = question[end] as usize;
            rows(question, end + 1, n)
        }
    }
}
