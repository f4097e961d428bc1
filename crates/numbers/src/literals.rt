// The number that a literal stands for: its digits and the power of ten are exact whole numbers, and one division rounds once.
ghost use Rattle.std.specs.Prelude.{◌≡◌, T};
ghost use Rattle.std.specs.Float.Ieee.Scale.{finite};
ghost use Rattle.numbers.specs.Literals.{IsNumber, magnitude_in, number_in};

// The number without its sign, in one pass: each digit after the point makes the power of ten one place longer.
fn magnitude(text: &[u8]) -> f64
    requires { IsNumber text.now }
    ensures { result ≡ magnitude_in text.now }
{
    let mut digits: u64 = 0;
    let mut power: u64 = 1;
    let mut scale: u64 = 1;
    for &b in text {
        if b == b'.' {
            scale = 10;
        } else if b >= b'0' {
            digits = digits * 10 + (b - b'0') as u64;
            power *= scale;
        }
    }
    digits as f64 / power as f64
}

// The number that a literal stands for. It is no NaN and no infinity.
pub fn number(text: &[u8]) -> f64
    requires { IsNumber text.now }
    ensures value { result ≡ number_in text.now }
    ensures finite { T (finite result) }
{
    let size = magnitude(text);
    if text[0] == b'-' { -size } else { size }
}
