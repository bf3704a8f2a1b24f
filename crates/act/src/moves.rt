// The acts that move bytes between the image and the caller's rooms. What an act does not look at is
// `[]` or 0 in its contract.
ghost use Rattle.std.specs.Prelude.{◌≡◌, [], ◌+◌, ◌≤◌, length};
ghost use Rattle.octets.specs.Part.{part};
ghost use Rattle.octets.specs.Put.{put};
ghost use Rattle.geometry.specs.Frame.{Framed};
ghost use Rattle.meaning.specs.declared.Act.TheVariants.{Read, Write, XpWrite, XdRead};
ghost use Rattle.meaning.specs.Acts.{leaves, hands};
ghost use Rattle.meaning.specs.Allowed.{Allowed};

use geometry::{Frame, Geometry, RECORD};
use meaning::Span;

// READ: the blocks go to the room's front.
#[tactic(auto, using(meaning::specs::Lengths::span_in))]
pub fn read(shelf: Frame<'_>, x: Span, room: &mut [u8]) -> usize
    requires { Allowed shelf.image.now shelf.g [] (length room.old) (Read x) }
    ensures { (room.new ≡ put room.old 0 (hands shelf.entry.image.now shelf.entry.g [] (Read x))) × (result ≡ length (hands shelf.entry.image.now shelf.entry.g [] (Read x))) }
{
    let g = shelf.g;
    hand_over(shelf.image, g.place(x.drive, x.block), x.count * g.l, room)
}

// WRITE: the blocks become the bytes sent.
#[tactic(auto, using(meaning::specs::Lengths::span_in))]
pub fn write(image: &mut [u8], g: Geometry, x: Span, sent: &[u8])
    requires { Framed image.old g × Allowed image.old g sent.now 0 (Write x) }
    ensures { image.new ≡ leaves image.old g sent.now (Write x) }
{
    octets::put_at(image, g.place(x.drive, x.block), sent);
}

// XPWRITE: the bytes sent are XORed into the blocks.
#[tactic(auto, using(meaning::specs::Lengths::span_in))]
pub fn xpwrite(image: &mut [u8], g: Geometry, x: Span, sent: &[u8])
    requires { Framed image.old g × Allowed image.old g sent.now 0 (XpWrite x) }
    ensures { image.new ≡ leaves image.old g sent.now (XpWrite x) }
{
    octets::xor_at(image, g.place(x.drive, x.block), sent);
}

// XDREAD: slot i's result goes to the room's front, and is no longer retained.
#[tactic(auto, unfolding(slots::specs::Change::released))]
pub fn xdread(image: &mut [u8], g: Geometry, x: Span, i: usize, room: &mut [u8]) -> usize
    requires { Framed image.old g × Allowed image.old g [] (length room.old) (XdRead x i) }
    ensures { (image.new ≡ leaves image.old g [] (XdRead x i)) × (room.new ≡ put room.old 0 (hands image.old g [] (XdRead x i))) × (result ≡ length (hands image.old g [] (XdRead x i))) }
{
    let n = hand_over(image, g.slot_at(i) + RECORD, x.count * g.l, room);
    slots::release(image, g, i);
    n
}

// The n bytes from index at on go to the room's front.
#[tactic(auto, using(octets::specs::Part::mid_part, octets::specs::Part::length_part))]
fn hand_over(image: &[u8], at: usize, n: usize, room: &mut [u8]) -> usize
    requires { (at + n ≤ length image.now) × (n ≤ length room.old) }
    ensures { (room.new ≡ put room.old 0 (part image.now at n)) × (result ≡ length (part image.now at n)) }
{
    octets::put_at(room, 0, &image[at..at + n]);
    n
}
