// The lines of a page's rows: row number, outcome, policy and mark, in decimal digits.
// A buffer that grows would be no plainer: it takes an allocator, and each line could fail.
#![tactic(auto)]

ghost use Rattle.std.specs.Prelude.{◌≡◌, ◌+◌, ◌*◌, ◌≤◌, ◌<◌, length, take, drop};
ghost use Rattle.pages.specs.Lines.{little_endian};
ghost use Rattle.pages.specs.Listing.{row_size};
ghost use Rattle.folder.specs.Added.{Added};
ghost use Rattle.row_lines.specs.RowLines.{RowsPut, row_at};

use folder::lines::put_numbers;
use pages::ROW_SIZE;

// The number in the four bytes from a place of a page on.
fn four_at(page: &[u8], at: usize) -> u32
    requires { at + 4 ≤ length page.now }
    ensures { result ≡ little_endian (take 4 (drop at page.now)) }
{
    u32::from_le_bytes([page[at], page[at + 1], page[at + 2], page[at + 3]])
}

// The number in the eight bytes from a place of a page on.
fn eight_at(page: &[u8], at: usize) -> u64
    requires { at + 8 ≤ length page.now }
    ensures { result ≡ little_endian (take 8 (drop at page.now)) }
{
    let low = four_at(page, at);
    let high = four_at(page, at + 4);
    u64::from(low) + (u64::from(high) << 32)
}

// The line of the row that lies at a byte of a page: row number, outcome, policy and mark.
fn put_row(page: &[u8], at: usize, out: &mut [u8], filled: usize) -> usize
    requires { (at + row_size ≤ length page.now) × (filled + 84 ≤ length out.old) }
    ensures { Added out.old filled (row_at (drop at page.now)) out.new result × (result ≤ filled + 40) }
{
    let row = four_at(page, at) as usize;
    let outcome = usize::from(page[at + 4]);
    let policy = usize::from(page[at + 5]);
    let mark = eight_at(page, at + 6) as usize;
    put_numbers(out, filled, b"", &[row, outcome, policy, mark])
}

// The lines of so many rows of a page.
pub fn put_rows(page: &[u8], written: usize, out: &mut [u8]) -> usize
    requires { (row_size * written ≤ length page.now) × (40 * written + 84 ≤ length out.old) }
    ensures { RowsPut page.now written out.new result }
{
    let mut filled = 0;
    for n in 0..written {
        filled = put_row(page, ROW_SIZE * n, out, filled);
    }
    filled
}
