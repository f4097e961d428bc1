// Tallies one question again and again, so that the instructions can be counted. The input: how often, and how many requests, in 4 bytes each, and as parts the text, the question,
// and the requests as they are lent.
#![tactic(auto)]

ghost use Rattle.std.specs.Prelude.{◌<◌};

use compiling::compile;
use tallies::tally;
use vectors::{read_part, stamp, vector_count, with};

// A number for each tally: its refusal and the sums of the outcomes 1 and 2.
fn told(refusal: u8, counts: &[u32]) -> u64
    ensures { result < 1000003 }
{
    if counts.len() < 612 {
        return u64::from(refusal);
    }
    let allowed = with(u64::from(refusal), u64::from(counts[544]));
    with(allowed, u64::from(counts[545]))
}

fn tally_once<'a>(
    text: &'a [u8],
    table: &[u8],
    question: &'a [u8],
    many: usize,
    requests: &'a [u8],
    counts: &mut [u32; 612],
    sum: u64,
) -> u64
    requires { sum < 1000003 }
    ensures { result < 1000003 }
{
    stamp(counts, sum);
    let refusal = tally(text, table, question, many, requests, counts);
    (sum + told(refusal, counts)) % 1000003
}

fn tally_often<'a>(
    times: u32,
    text: &'a [u8],
    table: &[u8],
    question: &'a [u8],
    many: usize,
    requests: &'a [u8],
    counts: &mut [u32; 612],
) -> u64 {
    let mut sum: u64 = 0;
    for _ in 0..times {
        sum = tally_once(text, table, question, many, requests, counts, sum);
    }
    sum
}

fn main(rt: HostRuntime) {
    let mut input = rt.reader();
    let mut counts = [0u32; 612];
    let mut table = [0u8; 65536];
    let mut text = [0u8; 8192];
    let mut question = [0u8; 4097];
    let mut requests = [0u8; 2424];
    let times = vector_count(&mut input);
    let many = vector_count(&mut input) as usize;
    let n = read_part(&mut input, &mut text);
    let b = read_part(&mut input, &mut question);
    let r = read_part(&mut input, &mut requests);
    let _ = compile(1, &text[..n], &mut table);
    let sum = tally_often(
        times,
        &text[..n],
        &table,
        &question[..b],
        many,
        &requests[..r],
        &mut counts,
    );
    let _ = println!(rt; "{sum}");
}
