// A folder's sheet, printed: policy.txt, question.bin and request.txt are read, and the rows printed that are answered with yes, under the version that is named.
#![tactic(auto)]

ghost use Rattle.std.specs.Prelude.{◌≡◌, ◌*◌, ◌≤◌, ◌<◌, length};
ghost use Rattle.pages.specs.Listing.{row_size};
ghost use Rattle.targets.specs.Matching.{request};
ghost use Rattle.request_lines.specs.Lines.{request_in};
ghost use Rattle.printing.specs.Printed.{Accepted, PagePrinted, ListedBefore, page_room, all_listed, printed_for};

use compiling::compile;
use folder::lines::put_numbers;
use folder::{print_refusal, read_file};
use pages::Page;
use request_lines::{line_after, line_end};
use row_lines::put_rows;
use sheets::{row_count, sheet};
use std::rt::Files;
use streams::print_bytes;

// What is printed of a sheet that is not refused: how many rows there are, and how many of them are allowed.
#[derive(Clone, Copy)]
pub struct Printed {
    pub rows: usize,
    pub allowed: usize,
}

// A line of a word and a number.
fn print_one<P: Print>(rt: &P, word: &[u8], n: usize)
    requires { length word.now ≤ 8 }
{
    let mut out = [0u8; 29];
    let end = put_numbers(&mut out, 0, word, &[n]);
    print_bytes(rt, &out[..end]);
}

// Prints so many rows of a page, at once.
fn print_rows<P: Print>(rt: &P, page: &[u8], written: usize)
    requires { (row_size * written ≤ length page.now) × (written ≤ page_room) }
{
    let mut out = [0u8; 400084]; // 40 bytes for each of 10,000 rows, and room for a line of any numbers
    let n = put_rows(page, written, &mut out);
    print_bytes(rt, &out[..n]);
}

// Prints the page from a start row on, and gives how many rows it has and the row to go on with.
fn print_page<'a, P: Print>(
    rt: &P,
    text: &'a [u8],
    table: &[u8],
    question: &'a [u8],
    subject: &[u8],
    action: &'a [u8],
    resource: &[u8],
    rows: usize,
    start: usize,
) -> Page
    requires accepted { Accepted text.now table.now question.now (request subject.now action.now resource.now) rows }
    requires start_lt_rows { start < rows }
    ensures { PagePrinted text.now table.now question.now
        (request subject.now action.now resource.now) rows start result }
{
    let mut page = [0u8; 140000]; // room for 10,000 rows
    match sheet(
        text, table, question, subject, action, resource, start, &mut page, 0,
    ) {
        // never: a sheet that is accepted is refused on no page
        Err(_) => Page {
            written: 0,
            next: rows,
        },
        Ok(listed) => {
            print_rows(rt, &page, listed.written);
            listed
        }
    }
}

// Prints the pages from a start row on, and gives how many rows they and those before them have.
fn print_pages<'a, P: Print>(
    rt: &P,
    text: &'a [u8],
    table: &[u8],
    question: &'a [u8],
    subject: &[u8],
    action: &'a [u8],
    resource: &[u8],
    rows: usize,
    first: usize,
    before: usize,
) -> usize
    requires accepted { Accepted text.now table.now question.now (request subject.now action.now resource.now) rows }
    requires listed_before { ListedBefore text.now table.now question.now (request subject.now action.now resource.now) rows first before }
    ensures { result ≡ all_listed text.now table.now question.now
        (request subject.now action.now resource.now) rows }
{
    let mut listed = before;
    let mut start = first;
    // a `for` would be no plainer: each page says where the next starts
    while start < rows {
        let page = print_page(
            rt, text, table, question, subject, action, resource, rows, start,
        );
        listed += page.written;
        start = page.next;
    }
    listed
}

// Prints the sheet, and gives what it printed.
fn print_sheet<'a, P: Print>(
    rt: &P,
    text: &'a [u8],
    table: &[u8],
    question: &'a [u8],
    subject: &[u8],
    action: &'a [u8],
    resource: &[u8],
) -> Result<Printed, u8>
    ensures { result ≡ printed_for text.now table.now question.now
        (request subject.now action.now resource.now) }
{
    let mut page = [0u8; 140000]; // room for 10,000 rows
    match sheet(
        text, table, question, subject, action, resource, 0, &mut page, 0,
    ) {
        Err(number) => {
            print_refusal(rt, u32::from(number), 0, 0, 0);
            Err(number)
        }
        Ok(Page { written, next }) => {
            let rows = row_count(question);
            print_one(rt, b"rows ", rows);
            print_rows(rt, &page, written);
            let allowed = print_pages(
                rt, text, table, question, subject, action, resource, rows, next, written,
            );
            print_one(rt, b"allowed ", allowed);
            Ok(Printed { rows, allowed })
        }
    }
}

// The sheet of a request that has its three lines: subject, action, resource.
fn print_request<'a, P: Print>(
    rt: &P,
    text: &'a [u8],
    table: &[u8],
    question: &'a [u8],
    lines: &'a [u8],
) -> Result<Printed, u8>
    ensures { result ≡ printed_for text.now table.now question.now (request_in lines.now) }
{
    let subject = line_end(lines, 0);
    let second = line_after(lines, subject);
    let action = line_end(lines, second);
    let third = line_after(lines, action);
    let resource = line_end(lines, third);
    print_sheet(
        rt,
        text,
        table,
        question,
        &lines[..subject],
        &lines[second..action],
        &lines[third..resource],
    )
}

// Prints the sheet of the folder in which the program is started, under a version. A file is read with room for one byte more than its limit, so that what is too long is
// refused and not cut; of a request three lines of 101 bytes are enough.
pub fn print_folder<R: Files + Print>(rt: &R, version: u64) {
    let mut text = [0u8; 8193];
    let mut question = [0u8; 4097];
    let mut request = [0u8; 512];
    let mut table = [0u8; 65544];
    let n = read_file(rt, b"policy.txt", &mut text);
    let q = read_file(rt, b"question.bin", &mut question);
    let r = read_file(rt, b"request.txt", &mut request);
    match compile(version, &text[..n], &mut table) {
        Err(r) => print_refusal(
            rt,
            u32::from(r.number),
            r.spot.line,
            r.spot.column,
            r.spot.length,
        ),
        Ok(_) => {
            let _ = print_request(rt, &text[..n], &table, &question[..q], &request[..r]);
        }
    }
}
