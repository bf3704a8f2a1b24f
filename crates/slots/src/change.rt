// A result comes, goes, and all of a drive's go. Image and geometry stay apart here, where the image is
// written: a `Frame` with a `&mut` would need a clause in each contract that its geometry stays.
ghost use Rattle.std.specs.Prelude.{◌≡◌, ◌+◌, ◌<◌, ◌≤◌, length};
ghost use Rattle.octets.specs.Put.{put};
ghost use Rattle.geometry.specs.Frame.{Framed};
ghost use Rattle.slots.specs.Record.{bytes_of};
ghost use Rattle.slots.specs.Change.{lower_one, lowered, released, drop_one, dropped};

use crate::Slot;
use geometry::{Frame, Geometry, RECORD};

// Writes a record at index at.
pub fn write_record(image: &mut [u8], at: usize, r: Slot)
    requires { at + 16 ≤ length image.old }
    ensures { image.new ≡ put image.old at (bytes_of r) }
{
    let mut b = [0u8; RECORD];
    octets::put_be::<4>(&mut b, 0, r.rank);
    octets::put_be::<1>(&mut b, 4, r.kind);
    octets::put_be::<1>(&mut b, 5, r.drive);
    octets::put_be::<2>(&mut b, 6, r.len);
    octets::put_be::<4>(&mut b, 8, r.block.0);
    octets::put_be::<4>(&mut b, 12, r.last);
    octets::put_at(image, at, &b);
}

// Slot i's rank falls by one where it is above the rank.
fn lower_one(image: &mut [u8], g: Geometry, rank: usize, i: usize)
    requires { Framed image.old g × (i < g.s) }
    ensures { image.new ≡ lower_one g rank i image.old }
{
    let at = g.slot_at(i);
    let old = octets::be::<4>(image, at);
    if rank < old {
        octets::put_be::<4>(image, at, old - 1);
    }
}

// Ranks above the rank fall by one.
fn lower(image: &mut [u8], g: Geometry, rank: usize)
    requires { Framed image.old g }
    ensures { image.new ≡ lowered g rank g.s image.old }
{
    for i in 0..g.s {
        lower_one(image, g, rank, i);
    }
}

// Slot i's result goes: its record is zeroed, its data left, and higher ranks fall by one.
pub fn release(image: &mut [u8], g: Geometry, i: usize)
    requires { Framed image.old g × (i < g.s) }
    ensures { image.new ≡ released image.old g i }
{
    let at = g.slot_at(i);
    let rank = octets::be::<4>(image, at);
    octets::put_at(image, at, &[0; RECORD]);
    lower(image, g, rank);
}

// Slot i's result goes where it is the drive's.
fn drop_one(image: &mut [u8], g: Geometry, drive: usize, i: usize)
    requires { Framed image.old g × (i < g.s) }
    ensures { image.new ≡ drop_one g drive i image.old }
{
    let r = crate::read_slot(Frame { image, g }, i);
    if (r.kind != 0) & (r.drive == drive) {
        release(image, g, i);
    }
}

// All results of the drive go, and the ranks of the others close up.
pub fn drop_drive(image: &mut [u8], g: Geometry, drive: usize)
    requires { Framed image.old g }
    ensures { image.new ≡ dropped image.old g drive }
{
    for i in 0..g.s {
        drop_one(image, g, drive, i);
    }
}
