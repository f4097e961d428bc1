// Decides one request again and again, so that the instructions can be counted. The input: how often, and the version, in 4 bytes each, and as parts the text that is compiled, the text that
// is lent beside its table (another one gets refusal 20), the bag, the subject, the action and the resource.
#![tactic(auto)]

ghost use Rattle.std.specs.Prelude.{◌<◌};

use compiling::compile;
use deciding::decide;
use meaning::{Decision, Marked};
use vectors::{read_part, stamp, vector_count};

// A number for each decision.
fn decided(d: Decision) -> u64
    ensures { result < 5000 }
{
    match d {
        Decision::Allowed(n) => (1000 + n % 1000) as u64,
        Decision::Forbidden(n) => (2000 + n % 1000) as u64,
        Decision::Nothing => 3000,
        Decision::System => 4000,
    }
}

// A number for each answer, with something of its mark.
fn told(answer: Result<Marked, u8>) -> u64
    ensures { result < 1000003 }
{
    match answer {
        Err(number) => u64::from(number),
        Ok(m) => decided(m.d) + m.mark % 1000,
    }
}

// Decides once more; the new sum tells every answer so far.
fn decide_once<'a>(
    text: &'a [u8],
    table: &mut [u8],
    bag: &'a [u8],
    subject: &[u8],
    action: &'a [u8],
    resource: &[u8],
    sum: u64,
) -> u64
    requires { sum < 1000003 }
    ensures { result < 1000003 }
{
    stamp(table, sum);
    let answer = decide(text, table, bag, subject, action, resource);
    (sum + told(answer)) % 1000003
}

// Decides so many times.
fn decide_often<'a>(
    times: u32,
    text: &'a [u8],
    table: &mut [u8],
    bag: &'a [u8],
    subject: &[u8],
    action: &'a [u8],
    resource: &[u8],
) -> u64 {
    let mut sum: u64 = 0;
    for _ in 0..times {
        sum = decide_once(text, table, bag, subject, action, resource, sum);
    }
    sum
}

fn main(rt: HostRuntime) {
    let mut input = rt.reader();
    let mut table = [0u8; 65537];
    let mut compiled = [0u8; 8192];
    let mut text = [0u8; 8192];
    let mut bag = [0u8; 4097];
    let mut subject = [0u8; 101];
    let mut action = [0u8; 101];
    let mut resource = [0u8; 101];
    let times = vector_count(&mut input);
    let version = vector_count(&mut input);
    let c = read_part(&mut input, &mut compiled);
    let n = read_part(&mut input, &mut text);
    let b = read_part(&mut input, &mut bag);
    let s = read_part(&mut input, &mut subject);
    let a = read_part(&mut input, &mut action);
    let r = read_part(&mut input, &mut resource);
    let _ = compile(u64::from(version), &compiled[..c], &mut table);
    let sum = decide_often(
        times,
        &text[..n],
        &mut table,
        &bag[..b],
        &subject[..s],
        &action[..a],
        &resource[..r],
    );
    let _ = println!(rt; "{sum}");
}
