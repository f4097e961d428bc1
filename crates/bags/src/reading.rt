// Things read from bytes, one after the other.
ghost use Rattle.std.specs.Prelude.{◌≡◌, ℕ, List, Option, Some};
ghost use Rattle.bags.specs.Reading.{many};

// A thing that stands in bytes.
pub trait Thing {
    // Where the one that starts at a place ends, or None where it is broken.
    ghost ending: { List ℕ → ℕ → Option ℕ };

    fn end(s: &[u8], at: usize) -> Option<usize>
        ensures { result ≡ ending s.now at };
}

// Where `n` things end, one after the other.
pub fn many_end<T: Thing>(n: usize, s: &[u8], at: usize) -> Option<usize>
    ensures { result ≡ many n (T.ending s.now) at }
{
    let mut next = at;
    for _ in 0..n {
        next = T::end(s, next)?;
    }
    Some(next)
}
