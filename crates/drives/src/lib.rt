// The drive table of a shelf's image: each drive's state and address, the lookup of addresses, and
// the marking of a drive.

#![tactic(auto)]

ghost use Rattle.std.specs.Prelude.{◌≡◌, ◌<◌, ◌≤◌, length};
ghost use Rattle.geometry.specs.Frame.{Framed};
ghost use Rattle.drives.specs.Table.{address_of, failed, table_ok, drive_of, target_of, secondary_of, source_drive, marked};

use geometry::{Address, Frame, Geometry};

// How a command came: the address that it was sent to.
#[derive(Clone, Copy)]
pub struct Came {
    pub target: Address,
}

// Has drive i failed?
pub fn is_failed(shelf: Frame<'_>, i: usize) -> bool
    requires { i < shelf.g.d }
    ensures { result ≡ failed shelf.entry.image.now shelf.entry.g i }
{
    octets::byte(shelf.image, shelf.g.entry_at(i)) == 1
}

// Drive i's address.
pub fn address(shelf: Frame<'_>, i: usize) -> Address
    requires { i < shelf.g.d }
    ensures { (result.0 ≡ address_of shelf.entry.image.now shelf.entry.g i) × (result.0 < 16777216) }
{
    Address(octets::be::<3>(shelf.image, shelf.g.entry_at(i) + 1))
}

// The drive with address a, compared as a whole number: one above FFFFFFh is no drive's.
fn find_drive(shelf: Frame<'_>, a: Address) -> Option<usize>
    ensures { result ≡ drive_of shelf.entry.image.now shelf.entry.g a.0 }
{
    (0..shelf.g.d).find(|i| address(shelf, *i) == a)
}

// Three names for the one search: 01 speaks of the three apart, and so do `target_of`, `secondary_of` and
// `source_drive`.
//
// The drive that a command was sent to.
pub fn find_target(shelf: Frame<'_>, came: Came) -> Option<usize>
    ensures { result ≡ target_of shelf.entry.image.now shelf.entry.g came }
{
    find_drive(shelf, came.target)
}

// The drive that a command names as its secondary.
pub fn find_secondary(shelf: Frame<'_>, came: Came, address: Address) -> Option<usize>
    ensures { result ≡ secondary_of shelf.entry.image.now shelf.entry.g came address.0 }
{
    find_drive(shelf, address)
}

// The drive that a source entry names.
pub fn find_source(shelf: Frame<'_>, came: Came, address: Address) -> Option<usize>
    ensures { result ≡ source_drive shelf.entry.image.now shelf.entry.g came address.0 }
{
    find_drive(shelf, address)
}

// Are the states and the addresses right? Each address is read once: those of the drives passed are
// kept.
pub fn table_ok(shelf: Frame<'_>) -> bool
    ensures { result ≡ table_ok shelf.entry.image.now shelf.entry.g }
{
    let mut kept = [0u32; 32];
    let mut ok = true;
    for i in 0..shelf.g.d {
        let state = octets::byte(shelf.image, shelf.g.entry_at(i));
        let new = octets::keep_new(&mut kept, i, address(shelf, i).0);
        ok &= (state <= 1) & new;
    }
    ok
}

// Writes drive i's state byte, a number as the C interface passes it and as it is stored. Image and
// geometry stay apart where the image is written: a `Frame` with a `&mut` would need a clause in each
// contract that its geometry stays.
pub fn mark(image: &mut [u8], g: Geometry, i: usize, state: usize)
    requires { Framed image.old g × (i < g.d) × (state < 256) }
    ensures { image.new ≡ marked image.old g i state }
{
    let at = g.entry_at(i);
    image[at] = state as u8;
}
