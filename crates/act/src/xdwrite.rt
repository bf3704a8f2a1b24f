// XDWRITE, XDWRITE(10) and XDWRITEREAD(10): the result goes to the secondary, is retained, or goes to the
// room.
ghost use Rattle.std.specs.Prelude.{◌≡◌, length};
ghost use Rattle.octets.specs.Put.{put};
ghost use Rattle.geometry.specs.Frame.{Framed};
ghost use Rattle.meaning.specs.declared.Act.TheVariants.{Couple, Retain, XdWriteRead};
ghost use Rattle.meaning.specs.Acts.{leaves, hands};
ghost use Rattle.meaning.specs.Allowed.{Allowed};

use crate::keep::entry_of;
use crate::pass::{Pass, mix, pass_on, write_data};
use geometry::{Frame, Geometry, RECORD};
use meaning::Span;

// Sec Ctl 00 or 10: the result goes to the blocks of y, and then the data to those of x.
#[tactic(auto, using(meaning::specs::Lengths::span_in, crate::specs::Xdwrite::coupled_by))]
pub fn couple(image: &mut [u8], g: Geometry, x: Span, y: Span, mirror: bool, sent: &[u8])
    requires { Framed image.old g × Allowed image.old g sent.now 0 (Couple x y mirror) }
    ensures { image.new ≡ leaves image.old g sent.now (Couple x y mirror) }
{
    let from = g.place(x.drive, x.block);
    let to = g.place(y.drive, y.block);
    let p = Pass {
        from,
        to,
        mirror,
        adds: !mirror,
    };
    pass_on(image, sent, p);
    octets::put_at(image, from, sent);
}

// Sec Ctl 11, or XDWRITE(10): the result goes to slot i, then the data to the blocks of x unless ndisc (NDisc,
// or DISABLE WRITE) is set, and last the slot's record.
#[tactic(auto, using(meaning::specs::Lengths::span_in, crate::specs::Xdwrite::retained_by))]
pub fn retain(
    image: &mut [u8],
    g: Geometry,
    x: Span,
    i: usize,
    mirror: bool,
    ndisc: bool,
    sent: &[u8],
)
    requires { Framed image.old g × Allowed image.old g sent.now 0 (Retain x i mirror ndisc) }
    ensures { image.new ≡ leaves image.old g sent.now (Retain x i mirror ndisc) }
{
    let entry = entry_of(Frame { image, g }, 1, x);
    let at = g.slot_at(i);
    let from = g.place(x.drive, x.block);
    let p = Pass {
        from,
        to: at + RECORD,
        mirror,
        adds: false,
    };
    pass_on(image, sent, p);
    write_data(image, from, !ndisc, sent);
    slots::write_record(image, at, entry);
}

// XDWRITEREAD(10): the result goes to the room's front before the data, unless disable is set, goes to the blocks
// of x.
#[tactic(auto, using(meaning::specs::Lengths::span_in, crate::specs::Xdwrite::front_long))]
pub fn xdwriteread(
    image: &mut [u8],
    g: Geometry,
    x: Span,
    disable: bool,
    sent: &[u8],
    room: &mut [u8],
) -> usize
    requires { Framed image.old g × Allowed image.old g sent.now (length room.old) (XdWriteRead x disable) }
    ensures { (image.new ≡ leaves image.old g sent.now (XdWriteRead x disable)) × (room.new ≡ put room.old 0 (hands image.old g sent.now (XdWriteRead x disable))) × (result ≡ length (hands image.old g sent.now (XdWriteRead x disable))) }
{
    let at = g.place(x.drive, x.block);
    let n = sent.len();
    mix(&mut room[..n], image, at, false, sent, 0);
    write_data(image, at, !disable, sent);
    n
}
