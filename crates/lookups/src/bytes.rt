// Bytes compared four at a time: paths and short strings take fewer steps so.
ghost use Rattle.std.specs.Prelude.{◌≡◌, ℕ, ◌+◌, ◌<◌, ◌≤◌, length};
ghost use Rattle.slices.specs.Decides.{Decides};
ghost use Rattle.slices.specs.Same.{same};
ghost use Rattle.bags.specs.Reading.{byte};

use slices::pieces::four_from;

// Whether a and b have the same four bytes from `i` on.
fn same_four(a: &[u8], b: &[u8], i: usize) -> bool
    requires i_in_bounds { i + 4 ≤ length a.now }
    requires i_in_bounds_2 { i + 4 ≤ length b.now }
    ensures { Decides ((k : ℕ) → i ≤ k → k < i + 4 → byte a.now k ≡ byte b.now k) result }
{
    four_from(a, i) == four_from(b, i)
}

// Whether a and b, of one length, hold the same bytes: four at a time, and the last four first, in which paths that begin alike mostly differ.
pub fn same_bytes(a: &[u8], b: &[u8]) -> bool
    requires { length a.now ≡ length b.now }
    ensures { result ≡ same a.now b.now }
{
    if a.len() < 4 {
        return slices::same(a, b);
    }
    let last = a.len() - 4;
    if !same_four(a, b, last) {
        return false;
    }
    // by fours that are counted: a range that steps passes over what lies between one by one
    for n in 0..(last + 3) / 4 {
        if !same_four(a, b, 4 * n) {
            return false;
        }
    }
    true
}
