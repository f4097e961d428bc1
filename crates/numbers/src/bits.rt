// The numbers of a bag: eight bytes, the lowest first, are the bits of a binary64, which must be finite.
ghost use Rattle.std.specs.Prelude.{◌≡◌, ◌+◌, ◌≤◌, T, length};
ghost use Rattle.std.specs.Float.{binary64};
ghost use Rattle.std.specs.Float.Ieee.{of_bits};
ghost use Rattle.std.specs.Float.Ieee.Scale.{finite};
ghost use Rattle.numbers.specs.Bits.{bits_at, number_at};

// The eight bytes from `at`, the lowest first.
fn bits_at(s: &[u8], at: usize) -> u64
    requires { at + 8 ≤ length s.now }
    ensures { result ≡ bits_at s.now at }
{
    u64::from_le_bytes([
        s[at],
        s[at + 1],
        s[at + 2],
        s[at + 3],
        s[at + 4],
        s[at + 5],
        s[at + 6],
        s[at + 7],
    ])
}

// Whether these are the bits of a finite number: the exponent's field is not all ones.
fn is_finite(bits: u64) -> bool
    ensures { result ≡ finite (of_bits binary64 bits) }
{
    (bits >> 52) & 0x7FF != 0x7FF
}

// The finite number with these bits.
fn number_of(bits: u64) -> f64
    requires { T (finite (of_bits binary64 bits)) }
    ensures { result ≡ of_bits binary64 bits }
{
    f64::from_bits(bits)
}

// Whether the eight bytes from `at` are a finite number's.
pub fn is_number_at(s: &[u8], at: usize) -> bool
    requires { at + 8 ≤ length s.now }
    ensures { result ≡ finite (number_at s.now at) }
{
    is_finite(bits_at(s, at))
}

// The finite number whose eight bytes stand from `at` on.
pub fn number_at(s: &[u8], at: usize) -> f64
    requires at_in_bounds { at + 8 ≤ length s.now }
    requires t { T (finite (number_at s.now at)) }
    ensures { result ≡ number_at s.now at }
{
    number_of(bits_at(s, at))
}
