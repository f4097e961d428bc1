// A row's choices, by column: each is the number of a candidate from 0 on. Six columns always; those that the question lacks have one choice.
#![tactic(auto)]

ghost use Rattle.std.specs.Prelude.{◌≡◌, cond, ℕ, ◌-◌, ◌%◌, ◌<◌, ltb, get_or};
ghost use Rattle.questions.specs.Questions.{product, count_of};
ghost use Rattle.questions.specs.Sizes.{most_columns};
ghost use Rattle.pages.specs.Rows.{counts_by, choices_at, Few, Counted, RowPlaced, Moved};

use questions::sizes::{MOST_CANDIDATES, MOST_COLUMNS};

// The last choice of each of the `n` columns at `heads`, and 0 past the last column.
pub fn lasts(s: &[u8], n: usize, heads: &[usize; MOST_COLUMNS]) -> [u8; MOST_COLUMNS]
    requires { Counted s.now n heads.now }
    ensures { (i : ℕ) → i < most_columns → get_or result i 0 ≡ cond (ltb i n) (count_of s.now (get_or heads.now i 0) - 1) 0 }
{
    let mut ends = [0u8; MOST_COLUMNS];
    for i in 0..n {
        let head = heads[i];
        let count_at = head + 2 + s[head + 1] as usize;
        ends[i] = s[count_at] - 1;
    }
    ends
}

// A row's choices, the first column slowest: the digits of its number. After the last row it begins anew.
pub fn choices_of(lasts: &[u8; MOST_COLUMNS], row: usize) -> [u8; MOST_COLUMNS]
    requires { Few lasts.now }
    ensures { result ≡ choices_at (counts_by lasts.now) (row % product (counts_by lasts.now)) }
{
    let mut choices = [0u8; MOST_COLUMNS];
    let mut rest = row;
    for k in (0..MOST_COLUMNS).rev() {
        let n = lasts[k] as usize + 1;
        choices[k] = (rest % n) as u8;
        rest /= n;
    }
    choices
}

// On to the next row: the last column that has a choice left takes it, and the columns after it begin anew. `values` are the places of what is chosen.
// Answers the number of that column, from 0 on, and 0 past the last row.
pub fn step(
    grid: &[[usize; MOST_CANDIDATES]; MOST_COLUMNS],
    lasts: &[u8; MOST_COLUMNS],
    choices: &mut [u8; MOST_COLUMNS],
    values: &mut [usize; MOST_COLUMNS],
) -> usize
    requires { RowPlaced grid.now lasts.now choices.old values.old }
    ensures { Moved grid.now lasts.now choices.old result choices.new values.new }
{
    for k in (0..MOST_COLUMNS).rev() {
        let choice = choices[k];
        if choice < lasts[k] {
            let next = choice + 1;
            choices[k] = next;
            values[k] = grid[k][next as usize];
            return k;
        }
        choices[k] = 0;
        values[k] = grid[k][0];
    }
    0
}
