// Bytes, words and decimal numbers, put one behind the other into a lent buffer. `at` is how many bytes stand there already; each answers how many then do.
// A buffer that grows would be no plainer: it takes an allocator, and each line could fail.
ghost use Rattle.std.specs.Prelude.{◌≡◌, [], ◌∷◌, ◌++◌, ◌+◌, ◌*◌, ◌≤◌, ◌<◌, length, decimal};
ghost use Rattle.folder.specs.Added.{Added};
ghost use Rattle.folder.specs.Decimals.{numbers_line, refused_line};

pub fn put_byte(out: &mut [u8], at: usize, b: u8) -> usize
    requires { at < length out.old }
    ensures { Added out.old at (b ∷ []) out.new result }
{
    out[at] = b;
    at + 1
}

pub fn put_word(out: &mut [u8], at: usize, word: &[u8]) -> usize
    requires { at + length word.now ≤ length out.old }
    ensures { Added out.old at word.now out.new result }
{
    let end = at + word.len();
    out[at..end].copy_from_slice(word);
    end
}

// A number in decimal digits, and a byte behind it.
pub fn put_number(out: &mut [u8], at: usize, n: usize, end: u8) -> usize
    requires { at + 21 ≤ length out.old }
    ensures { Added out.old at (decimal n ++ (end ∷ [])) out.new result × (result ≤ at + 21) }
{
    let mut digits = itoa::Buffer::new();
    let next = put_word(out, at, digits.format(n).as_bytes());
    put_byte(out, next, end)
}

// A line of a word and numbers.
pub fn put_numbers(out: &mut [u8], at: usize, word: &[u8], numbers: &[usize]) -> usize
    requires { (0 < length numbers.now) × (at + length word.now + 21 * length numbers.now ≤ length out.old) }
    ensures { Added out.old at (word.now ++ numbers_line numbers.now) out.new result
        × (result ≤ at + length word.now + 21 * length numbers.now) }
{
    let mut next = put_word(out, at, word);
    for (i, n) in numbers.iter().enumerate() {
        let end = if i + 1 < numbers.len() { b' ' } else { b'\n' };
        next = put_number(out, next, *n, end);
    }
    next
}

// The line of a refusal: its number, line, column and length.
pub fn put_refusal(
    out: &mut [u8],
    at: usize,
    number: u32,
    line: usize,
    column: usize,
    size: usize,
) -> usize
    requires { at + 92 ≤ length out.old }
    ensures { Added out.old at (refused_line number line column size) out.new result × (result ≤ at + 92) }
{
    put_numbers(out, at, b"refused ", &[number as usize, line, column, size])
}
