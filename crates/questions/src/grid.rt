// The places of a question's columns and candidates, six by eight by value, and the number of its rows.
ghost use Rattle.std.specs.Prelude.{◌≡◌, cond, [], ℕ, ◌+◌, ◌≤◌, ◌<◌, ltb, get_or, Some};
ghost use Rattle.bags.specs.Reading.{many, end_place};
ghost use Rattle.questions.specs.Columns.{candidate_end, column_end};
ghost use Rattle.questions.specs.Questions.{head_of, cell, rows_of};
ghost use Rattle.questions.specs.Sizes.{most_columns, most_candidates, most_rows};

use crate::columns::{Candidate, Column};
use crate::sizes::{MOST_CANDIDATES, MOST_COLUMNS};
use lookups::steps::Stepped;

// The places of the `n` candidates from `at`, and 0 past the last.
fn candidate_places(s: &[u8], at: usize, n: usize) -> [usize; MOST_CANDIDATES]
    requires n_le_most_candidates { n ≤ most_candidates }
    requires by_index { (e : ℕ) × (many n (candidate_end s.now) at ≡ Some e) }
    ensures { (j : ℕ) → j < most_candidates → get_or result j 0 ≡ cond (ltb j n) (end_place (many j (candidate_end s.now) at)) 0 }
{
    let mut cells = [0usize; MOST_CANDIDATES];
    let mut next = at;
    for j in 0..n {
        cells[j] = next;
        next = Candidate::next(s, next);
    }
    cells
}

// The places of the candidates of the `n` columns from `at`, by column and choice; 0 where there is none.
pub fn places(s: &[u8], at: usize, n: usize) -> [[usize; MOST_CANDIDATES]; MOST_COLUMNS]
    requires n_le_most_columns { n ≤ most_columns }
    requires by_index { (e : ℕ) × (many n (column_end s.now) at ≡ Some e) }
    ensures { (i j : ℕ) → i < most_columns → j < most_candidates → get_or (get_or result i []) j 0 ≡ cell s.now at n i j }
{
    let mut grid = [[0usize; MOST_CANDIDATES]; MOST_COLUMNS];
    let mut next = at;
    for i in 0..n {
        let count_at = next + 2 + s[next + 1] as usize;
        let cells = candidate_places(s, count_at + 1, s[count_at] as usize);
        grid[i] = cells;
        next = Column::next(s, next);
    }
    grid
}

// The places of the `n` columns from `at`, and 0 past the last.
pub fn heads(s: &[u8], at: usize, n: usize) -> [usize; MOST_COLUMNS]
    requires n_le_most_columns { n ≤ most_columns }
    requires by_index { (e : ℕ) × (many n (column_end s.now) at ≡ Some e) }
    ensures { (i : ℕ) → i < most_columns → get_or result i 0 ≡ cond (ltb i n) (head_of s.now at i) 0 }
{
    let mut starts = [0usize; MOST_COLUMNS];
    let mut next = at;
    for i in 0..n {
        starts[i] = next;
        next = Column::next(s, next);
    }
    starts
}

// The number of rows of the `n` columns from `at`.
pub fn rows(s: &[u8], at: usize, n: usize) -> usize
    requires n_le_most_columns { n ≤ most_columns }
    requires by_index { (e : ℕ) × (many n (column_end s.now) at ≡ Some e) }
    ensures is { result ≡ rows_of n s.now at }
    ensures few { result ≤ most_rows }
{
    let mut total = 1;
    let mut next = at;
    for _ in 0..n {
        let count_at = next + 2 + s[next + 1] as usize;
        total *= s[count_at] as usize;
        next = Column::next(s, next);
    }
    total
}
