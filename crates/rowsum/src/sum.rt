// A row's sum, in a block that the caller lends.
ghost use Rattle.std.specs.Prelude.{◌≡◌, [], cond, ◌<◌, length};
ghost use Rattle.octets.specs.Xor.{◌⊻◌};
ghost use Rattle.sums.specs.Row.{counts, block_in, row_sum};

use geometry::{Block, Frame};

// Does a row count the drive? It counts them all, failed ones too.
#[tactic(auto, using(sums::specs::Counts::counts_all))]
fn counted(shelf: Frame<'_>, drive: usize) -> bool
    requires { drive < shelf.g.d }
    ensures { result ≡ counts shelf.entry.image.now shelf.entry.g drive }
{
    true
}

// XORs the drive's block of the row into sum, where the row counts the drive.
fn add_drive(sum: &mut [u8], shelf: Frame<'_>, row: usize, drive: usize)
    requires { (row < shelf.g.b) × (drive < shelf.g.d) × (length sum.old ≡ shelf.g.l) }
    ensures { sum.new ≡ sum.old ⊻ cond (counts shelf.entry.image.now shelf.entry.g drive) (block_in shelf.entry.image.now shelf.entry.g row drive) [] }
{
    if !counted(shelf, drive) {
        return;
    }
    octets::xor_from(sum, shelf.image, shelf.g.place(drive, Block(row)));
}

// Leaves the row's sum in sum. Shelf and sum stay apart: a struct of both, with its `&mut`, would need a clause in each
// contract that the shelf stays, where now one asks for the sum's length.
pub fn row_sum(sum: &mut [u8], shelf: Frame<'_>, row: usize)
    requires { (row < shelf.g.b) × (length sum.old ≡ shelf.g.l) }
    ensures { sum.new ≡ row_sum shelf.entry.image.now shelf.entry.g row }
{
    octets::fill_zero(sum);
    for drive in 0..shelf.g.d {
        add_drive(sum, shelf, row, drive);
    }
}
