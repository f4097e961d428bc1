// Asks page after page for one sheet, so that the instructions can be counted; a page has room for 34,285 rows. The input: how many pages, in 4 bytes,
// and as parts the text, the question, the subject, the action and the resource.
#![tactic(auto)]

ghost use Rattle.std.specs.Prelude.{◌<◌};

use compiling::compile;
use sheets::sheet;
use vectors::{read_part, stamp, vector_count};

// What a call answered, as a sum, and the row to go on with.
#[derive(Clone, Copy)]
struct Asked {
    sum: u64,
    next: usize,
}

fn ask_once<'a>(
    text: &'a [u8],
    table: &[u8],
    question: &'a [u8],
    subject: &[u8],
    action: &'a [u8],
    resource: &[u8],
    page: &mut [u8],
    start: usize,
    sum: u64,
) -> Asked
    requires { sum < 1000003 }
    ensures { result.sum < 1000003 }
{
    stamp(page, sum);
    match sheet(
        text, table, question, subject, action, resource, start, page, 0,
    ) {
        Err(number) => Asked {
            sum: (sum + u64::from(number)) % 1000003,
            next: 0,
        },
        Ok(page) => Asked {
            sum: (sum + (page.written % 1000 * 1000 + page.next % 1000) as u64) % 1000003,
            next: page.next,
        },
    }
}

fn ask_often<'a>(
    times: u32,
    text: &'a [u8],
    table: &[u8],
    question: &'a [u8],
    subject: &[u8],
    action: &'a [u8],
    resource: &[u8],
    page: &mut [u8],
) -> u64 {
    let mut sum: u64 = 0;
    let mut start = 0;
    for _ in 0..times {
        let asked = ask_once(
            text, table, question, subject, action, resource, page, start, sum,
        );
        sum = asked.sum;
        start = asked.next;
    }
    sum
}

fn main(rt: HostRuntime) {
    let mut input = rt.reader();
    let mut page = [0u8; 480000];
    let mut table = [0u8; 65536];
    let mut text = [0u8; 8192];
    let mut question = [0u8; 4097];
    let mut subject = [0u8; 101];
    let mut action = [0u8; 101];
    let mut resource = [0u8; 101];
    let times = vector_count(&mut input);
    let n = read_part(&mut input, &mut text);
    let b = read_part(&mut input, &mut question);
    let s = read_part(&mut input, &mut subject);
    let a = read_part(&mut input, &mut action);
    let r = read_part(&mut input, &mut resource);
    let _ = compile(1, &text[..n], &mut table);
    let sum = ask_often(
        times,
        &text[..n],
        &table,
        &question[..b],
        &subject[..s],
        &action[..a],
        &resource[..r],
        &mut page,
    );
    let _ = println!(rt; "{sum}");
}
