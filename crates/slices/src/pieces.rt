// Bytes at a place of a slice: whether given ones stand there, and four of them as one number, for fewer steps than byte by byte.
ghost use Rattle.std.specs.Prelude.{◌≡◌, ◌+◌, ◌≤◌, get_or, length};
ghost use Rattle.slices.specs.Standing.{stands_at, joined_of};

// The four bytes from `at` on as one number.
pub fn four_from(s: &[u8], at: usize) -> u32
    requires { at + 4 ≤ length s.now }
    ensures { result ≡ joined_of (get_or s.now at 0) (get_or s.now (at + 1) 0)
        (get_or s.now (at + 2) 0) (get_or s.now (at + 3) 0) }
{
    u32::from_le_bytes([s[at], s[at + 1], s[at + 2], s[at + 3]])
}

// Whether these bytes stand at a place.
pub fn stands<const N: usize>(s: &[u8], at: usize, bytes: &[u8; N]) -> bool
    requires { at + N ≤ length s.now }
    ensures { result ≡ stands_at bytes.now s.now at }
{
    s[at..at + N].starts_with(bytes)
}
