// The requests as they are lent: subject, action and resource of each, one behind the other, each behind its length byte.
ghost use Rattle.std.specs.Prelude.{◌≡◌, ◌≤◌, length};
ghost use Rattle.targets.specs.Matching.{request};
ghost use Rattle.tallies.specs.Lent.{requests_of, span_bytes, PartFound, RequestFound};
ghost use Rattle.tallies.specs.Tallies.{form_of, forms_of};

use targets::forms::{is_action, is_system, resource_type, subject_type};

// Where a part lies.
#[derive(Clone, Copy)]
pub struct LentSpan {
    pub start: usize,
    pub end: usize,
}

// Where the parts of a request lie. The next request starts at its resource's end.
#[derive(Clone, Copy)]
pub struct LentSpans {
    pub subject: LentSpan,
    pub action: LentSpan,
    pub resource: LentSpan,
}

// The part behind the length byte at a place. What is not wholly there is empty, and so is everything behind it.
fn part_at(requests: &[u8], at: usize) -> LentSpan
    requires { at ≤ length requests.now }
    ensures { PartFound requests.now at result }
{
    let n = requests.len();
    if at < n {
        let size = requests[at] as usize;
        let start = at + 1;
        if size <= n - start {
            return LentSpan {
                start,
                end: start + size,
            };
        }
    }
    LentSpan { start: n, end: n }
}

// The request at a place.
pub fn request_at(requests: &[u8], at: usize) -> LentSpans
    requires { at ≤ length requests.now }
    ensures { RequestFound requests.now at result }
{
    let subject = part_at(requests, at);
    let action = part_at(requests, subject.end);
    let resource = part_at(requests, action.end);
    LentSpans {
        subject,
        action,
        resource,
    }
}

// What is refused of a request by itself, 0 where nothing is; and whether the text and its table are looked at for it.
#[derive(Clone, Copy)]
pub struct RequestForm {
    pub asks: bool,
    pub refusal: u8,
}

// The form of a request. Of the system nothing is refused, and no table is looked at.
fn form_of(subject: &[u8], action: &[u8], resource: &[u8]) -> RequestForm
    ensures { result ≡ form_of (request subject.now action.now resource.now) }
{
    if is_system(subject) {
        return RequestForm {
            asks: false,
            refusal: 0,
        };
    }
    if subject_type(subject) == 0 {
        return RequestForm {
            asks: false,
            refusal: 21,
        };
    }
    if !is_action(action) {
        return RequestForm {
            asks: false,
            refusal: 22,
        };
    }
    if resource_type(resource) == 0 {
        return RequestForm {
            asks: false,
            refusal: 23,
        };
    }
    RequestForm {
        asks: true,
        refusal: 0,
    }
}

// The form of the request whose parts lie there.
fn form_at(requests: &[u8], spans: LentSpans, at: usize) -> RequestForm
    requires { RequestFound requests.now at spans }
    ensures { result ≡ form_of (request (span_bytes requests.now spans.subject) (span_bytes requests.now spans.action)
        (span_bytes requests.now spans.resource)) }
{
    form_of(
        &requests[spans.subject.start..spans.subject.end],
        &requests[spans.action.start..spans.action.end],
        &requests[spans.resource.start..spans.resource.end],
    )
}

// The first of so many requests that is refused by itself: its refusal, and whether the text and its table are looked at for one before it.
pub fn first_wrong(many: usize, requests: &[u8]) -> RequestForm
    ensures { result ≡ forms_of (requests_of many requests.now) }
{
    let mut asks = false;
    let mut at = 0;
    for _ in 0..many {
        let spans = request_at(requests, at);
        let form = form_at(requests, spans, at);
        at = spans.resource.end;
        asks |= form.asks;
        if form.refusal != 0 {
            return RequestForm {
                asks,
                refusal: form.refusal,
            };
        }
    }
    RequestForm { asks, refusal: 0 }
}
