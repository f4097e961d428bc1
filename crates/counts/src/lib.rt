// The lines of a tally, put into a lent buffer: how many rows there are, and the counts of each request and the sums, a line for each.
// A buffer that grows would be no plainer: it takes an allocator, and each line could fail.
#![tactic(auto)]

ghost use Rattle.std.specs.Prelude.{◌≡◌, ◌+◌, ◌*◌, ◌≤◌, length};
ghost use Rattle.folder.specs.Added.{Added};
ghost use Rattle.counts.specs.Tallied.{count_lines, group_lines, request_lines, tally_lines};

use folder::lines::{put_numbers, put_word};

// A line for each of so many counts from a place on: a word, the number of the count from 1, and the count.
fn put_counts(
    out: &mut [u8],
    at: usize,
    word: &[u8],
    counts: &[u32],
    from: usize,
    many: usize,
) -> usize
    requires { (length word.now ≤ 8) × (from + many ≤ 612) × (612 ≤ length counts.now) × (at + 50 * many ≤ length out.old) }
    ensures { Added out.old at (count_lines word.now counts.now from many) out.new result
        × (result ≤ at + 50 * many) }
{
    let mut filled = at;
    for n in 0..many {
        filled = put_numbers(out, filled, word, &[n + 1, counts[from + n] as usize]);
    }
    filled
}

// The lines of the group of counts from a place on: its four outcomes, and so many policies.
fn put_group(out: &mut [u8], at: usize, counts: &[u32], from: usize, policies: usize) -> usize
    requires { (from + 4 + policies ≤ 612) × (612 ≤ length counts.now) × (at + 200 + 50 * policies ≤ length out.old) }
    ensures { Added out.old at (group_lines counts.now from policies) out.new result
        × (result ≤ at + 200 + 50 * policies) }
{
    let outcomes = put_counts(out, at, b"outcome ", counts, from, 4);
    put_counts(out, outcomes, b"policy ", counts, from + 4, policies)
}

// The lines of so many requests: each group behind the request's number from 1.
fn put_requests(out: &mut [u8], at: usize, counts: &[u32], many: usize, policies: usize) -> usize
    requires { (612 ≤ length counts.now) × (many ≤ 8) × (policies ≤ 64) × (at + 3429 * many ≤ length out.old) }
    ensures { Added out.old at (request_lines counts.now policies many) out.new result
        × (result ≤ at + 3429 * many) }
{
    let mut filled = at;
    for k in 0..many {
        let heading = put_numbers(out, filled, b"request ", &[k + 1]);
        filled = put_group(out, heading, counts, 68 * k, policies);
    }
    filled
}

// The lines of a tally of up to eight requests over so many rows, by rules with so many policies.
pub fn put_tally(out: &mut [u8], counts: &[u32], rows: usize, many: usize, policies: usize) -> usize
    requires { (612 ≤ length counts.now) × (many ≤ 8) × (policies ≤ 64) × (30863 ≤ length out.old) }
    ensures { Added out.old 0 (tally_lines counts.now rows many policies) out.new result × (result ≤ 30863) }
{
    let first = put_numbers(out, 0, b"rows ", &[rows]);
    let requests = put_requests(out, first, counts, many, policies);
    let sums = put_word(out, requests, b"sums\n");
    put_group(out, sums, counts, 544, policies)
}
