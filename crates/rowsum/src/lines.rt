// The listing's lines, written one after the other.
ghost use Rattle.std.specs.Prelude.{◌≡◌, ◌++◌, ◌+◌, ◌-◌, ◌<◌, ◌≤◌, length};
ghost use Rattle.sums.specs.Row.{row_sum};
ghost use Rattle.text.specs.Page.{Writes};
ghost use Rattle.text.specs.Room.{fitted, fitted_count};
ghost use Rattle.text.specs.Lines.{newline, written};
ghost use Rattle.rowsum.specs.Listing.{head_line, row_line, shelf_lines};
ghost use Rattle.rowsum.specs.Turns.{head_length, row_length, line_text, row_text};

use crate::count;
use geometry::{Frame, Geometry};
use text::Page;

// Writes the first line.
fn put_head(page: &mut Page, g: Geometry, rows: usize)
    requires { page.old.at + head_length g rows ≤ length page.old.out.now }
    ensures { Writes (head_line g rows ++ newline) page.old page.new }
{
    page.put_field(b"drives ", g.d);
    page.put_field(b" blocks ", g.b);
    page.put_field(b" length ", g.l);
    page.put_field(b" open ", rows);
    page.put_word(b"\n");
}

// Writes the line of an open row.
fn put_line(page: &mut Page, row: usize, sum: &[u8])
    requires { page.old.at + row_length (length sum.now) row ≤ length page.old.out.now }
    ensures { Writes (row_line row sum.now ++ newline) page.old page.new }
{
    page.put_field(b"row ", row);
    page.put_word(b" sum ");
    page.put_hexadecimal(sum);
    page.put_word(b"\n");
}

// Writes the row's line, where the row is open. Its sum is left in sum.
fn put_row(page: &mut Page, sum: &mut [u8], shelf: Frame<'_>, row: usize)
    requires within { (row < shelf.g.b) × (length sum.old ≡ shelf.g.l) }
    requires room { page.old.at + length (line_text shelf.image.now shelf.g row) ≤ length page.old.out.now }
    ensures wrote { Writes (line_text shelf.entry.image.now shelf.entry.g row) page.old page.new }
    ensures sum_after { sum.new ≡ row_sum shelf.entry.image.now shelf.entry.g row }
{
    if !count::is_open(sum, shelf, row) {
        return;
    }
    put_line(page, row, sum);
}

// Writes the lines of all rows. The last row's sum is left in sum.
fn put_rows(page: &mut Page, sum: &mut [u8], shelf: Frame<'_>)
    requires summed { length sum.old ≡ shelf.g.l }
    requires room { page.old.at + length (row_text shelf.image.now shelf.g shelf.g.b) ≤ length page.old.out.now }
    ensures wrote { Writes (row_text shelf.entry.image.now shelf.entry.g shelf.entry.g.b) page.old page.new }
    ensures sum_after { sum.new ≡ row_sum shelf.entry.image.now shelf.entry.g (shelf.entry.g.b - 1) }
{
    for row in 0..shelf.g.b {
        put_row(page, sum, shelf, row);
    }
}

// Writes the whole listing of a shelf, or nothing where the room is too short, and answers its length: 0 for nothing, as
// `listing` promises it. The last row's sum is left in sum.
pub fn put_shelf(out: &mut [u8], sum: &mut [u8], shelf: Frame<'_>) -> usize
    requires { length sum.old ≡ shelf.g.l }
    ensures sum_after { sum.new ≡ row_sum shelf.entry.image.now shelf.entry.g (shelf.entry.g.b - 1) }
    ensures value { result ≡ fitted_count (written (shelf_lines shelf.entry.image.now shelf.entry.g)) out.old }
    ensures out_after { out.new ≡ fitted (written (shelf_lines shelf.entry.image.now shelf.entry.g)) out.old }
{
    let tally = count::count_rows(sum, shelf);
    if out.len() < count::head_length(shelf.g, tally.rows) + tally.bytes {
        return 0;
    }
    let mut page = Page { out, at: 0 };
    put_head(&mut page, shelf.g, tally.rows);
    put_rows(&mut page, sum, shelf);
    page.at
}
