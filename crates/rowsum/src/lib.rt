// The listing of a shelf's row sums, as text in a room that the caller lends.
//
// `listing` answers for every image and every room: the whole text at the room's front, or nothing
// and 0 where the room is too short. No listing is empty, so 0 tells the two apart.

#![tactic(auto)]

mod count;
mod lines;
mod sum;

ghost use Rattle.std.specs.Prelude.{◌≡◌, ◌≤◌, length};
ghost use Rattle.text.specs.Room.{fitted, fitted_count};
ghost use Rattle.text.specs.Lines.{written};
ghost use Rattle.rowsum.specs.Listing.{shelf_lines, listed, listed_count, printed_of};

use geometry::Frame;

// Lists a shelf, with the front of block as room for the sums.
fn list_in(out: &mut [u8], block: &mut [u8], shelf: Frame<'_>) -> usize
    requires { shelf.g.l ≤ length block.old }
    ensures value { result ≡ fitted_count (written (shelf_lines shelf.entry.image.now shelf.entry.g)) out.old }
    ensures out_after { out.new ≡ fitted (written (shelf_lines shelf.entry.image.now shelf.entry.g)) out.old }
{
    lines::put_shelf(out, &mut block[..shelf.g.l], shelf)
}

// Lists a shelf: lends the longest block there is, since memory is fixed.
fn list_shelf(out: &mut [u8], shelf: Frame<'_>) -> usize
    ensures value { result ≡ fitted_count (written (shelf_lines shelf.entry.image.now shelf.entry.g)) out.old }
    ensures out_after { out.new ≡ fitted (written (shelf_lines shelf.entry.image.now shelf.entry.g)) out.old }
{
    let mut block = [0u8; 4096];
    list_in(out, &mut block, shelf)
}

// Writes the listing of an image, and answers its length.
pub fn listing(image: &[u8], out: &mut [u8]) -> usize
    ensures value { result ≡ listed_count image.now out.old }
    ensures out_after { out.new ≡ listed image.now out.old }
{
    match image::shelf_in(image) {
        Some(shelf) => list_shelf(out, shelf),
        None => text::put_fitted(out, b"not a shelf\n"),
    }
}

// Writes what the row program prints for its input, and answers its length.
pub fn printed(input: &[u8], out: &mut [u8]) -> usize
    ensures value { result ≡ fitted_count (printed_of input.now) out.old }
    ensures out_after { out.new ≡ fitted (printed_of input.now) out.old }
{
    if 49152 < input.len() {
        return text::put_fitted(out, b"too large\n");
    }
    listing(input, out)
}
