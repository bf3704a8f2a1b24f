// How many rows are open, and how long the listing is: known before a byte of it is written.
ghost use Rattle.std.specs.Prelude.{◌≡◌, ◌+◌, ◌-◌, ◌<◌, ◌≤◌, eqb, length, get_or};
ghost use Rattle.folds.specs.All.{all_below};
ghost use Rattle.geometry.specs.Frame.{InRange};
ghost use Rattle.sums.specs.Row.{row_sum, is_open};
ghost use Rattle.rowsum.specs.Turns.{head_length, row_length};
ghost use Rattle.rowsum.specs.Tally.{Counted};

use crate::sum;
use geometry::{Frame, Geometry};

// Is every byte zero?
fn is_zero(sum: &[u8]) -> bool
    ensures { result ≡ all_below (length sum.now) (λ j. eqb (get_or sum.now j 0) 0) }
{
    sum.iter().all(|b| *b == 0)
}

// Is the row open? Its sum is left in sum.
pub fn is_open(sum: &mut [u8], shelf: Frame<'_>, row: usize) -> bool
    requires { (row < shelf.g.b) × (length sum.old ≡ shelf.g.l) }
    ensures { (result ≡ is_open shelf.entry.image.now shelf.entry.g row) × (sum.new ≡ row_sum shelf.entry.image.now shelf.entry.g row) }
{
    sum::row_sum(sum, shelf, row);
    !is_zero(sum)
}

// Rows that are open, and the bytes of their lines.
#[derive(Clone, Copy)]
pub struct Tally {
    pub rows: usize,
    pub bytes: usize,
}

// How long the first line is.
pub fn head_length(g: Geometry, rows: usize) -> usize
    requires { InRange g × (rows ≤ g.b) }
    ensures { (result ≡ head_length g rows) × (result ≤ 200000) }
{
    let d = text::decimal_len(g.d);
    let b = text::decimal_len(g.b);
    let l = text::decimal_len(g.l);
    30 + d + b + l + text::decimal_len(rows)
}

// How long the line of an open row is.
fn row_length(l: usize, row: usize) -> usize
    requires { (l ≤ 4096) × (row < 65536) }
    ensures { (result ≡ row_length l row) × (result ≤ 80000) }
{
    10 + text::decimal_len(row) + 2 * l
}

// What is counted with one row more, whose sum is left in sum.
fn with_row(tally: Tally, sum: &mut [u8], shelf: Frame<'_>, row: usize) -> Tally
    requires within { (row < shelf.g.b) × (length sum.old ≡ shelf.g.l) }
    requires counted_before { Counted shelf.image.now shelf.g row tally.rows tally.bytes }
    ensures counted { Counted shelf.entry.image.now shelf.entry.g (row + 1) result.rows result.bytes }
    ensures sum_after { sum.new ≡ row_sum shelf.entry.image.now shelf.entry.g row }
{
    if !is_open(sum, shelf, row) {
        return tally;
    }
    let n = row_length(shelf.g.l, row);
    Tally {
        rows: tally.rows + 1,
        bytes: tally.bytes + n,
    }
}

// Counts the rows: how many are open, and how many bytes their lines take. The last row's sum is left in sum.
pub fn count_rows(sum: &mut [u8], shelf: Frame<'_>) -> Tally
    requires { length sum.old ≡ shelf.g.l }
    ensures counted { Counted shelf.entry.image.now shelf.entry.g shelf.entry.g.b result.rows result.bytes }
    ensures sum_after { sum.new ≡ row_sum shelf.entry.image.now shelf.entry.g (shelf.entry.g.b - 1) }
{
    let mut tally = Tally { rows: 0, bytes: 0 };
    for row in 0..shelf.g.b {
        tally = with_row(tally, sum, shelf, row);
    }
    tally
}
