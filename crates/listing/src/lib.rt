// Listed rows: what of a decision is written, and where.
#![tactic(auto)]

ghost use Rattle.std.specs.Prelude.{◌≡◌, ◌++◌, ◌≤◌, ◌<◌, length, drop};
ghost use Rattle.meaning.specs.Decisions.{outcome_of, policy_of, is_allowed};
ghost use Rattle.pages.specs.Listing.{row_size, row_bytes};

use meaning::Decision;
use pages::ROW_SIZE;

// Whether a decision is yes.
pub fn is_allowed(d: Decision) -> bool
    ensures { result ≡ is_allowed d }
{
    matches!(d, Decision::Allowed(_) | Decision::System)
}

// Document 01's number of a decision.
fn outcome(d: Decision) -> u8
    ensures { result ≡ outcome_of d }
{
    match d {
        Decision::Allowed(_) => 1,
        Decision::Forbidden(_) => 2,
        Decision::Nothing => 3,
        Decision::System => 4,
    }
}

// The policy that decided, 0 where none did.
fn policy(d: Decision) -> u8
    requires { policy_of d < 256 }
    ensures { result ≡ policy_of d }
{
    match d {
        Decision::Allowed(n) | Decision::Forbidden(n) => n as u8,
        Decision::Nothing | Decision::System => 0,
    }
}

// A row's bytes at the start of the part that is lent; the bytes after them stay.
pub fn put_row(tail: &mut [u8], row: usize, d: Decision, mark: u64)
    requires row_size_in_bounds { row_size ≤ length tail.old }
    requires d_bound { policy_of d < 256 }
    ensures { tail.new ≡ row_bytes row d mark ++ drop row_size tail.old }
{
    let mut bytes = [0u8; ROW_SIZE];
    bytes[..4].copy_from_slice(&row.to_le_bytes()[..4]);
    bytes[4] = outcome(d);
    bytes[5] = policy(d);
    bytes[6..].copy_from_slice(&mark.to_le_bytes());
    tail[..ROW_SIZE].copy_from_slice(&bytes);
}
