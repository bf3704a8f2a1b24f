// What a decided command does to the image and to the receive room. Every fact that it needs was
// shown by the decision: nothing is checked here, and nothing is refused. Image and geometry stay apart in all
// functions that write the image: a struct with the `&mut` would need a clause in each that its geometry stays.

#![tactic(auto)]

mod keep;
mod moves;
mod pass;
mod rebuild;
mod xdwrite;

ghost use Rattle.std.specs.Prelude.{◌≡◌, length};
ghost use Rattle.octets.specs.Put.{put};
ghost use Rattle.geometry.specs.Frame.{Framed};
ghost use Rattle.meaning.specs.Acts.{leaves, hands};
ghost use Rattle.meaning.specs.Allowed.{Allowed};

use geometry::{Frame, Geometry};
use meaning::Act;

// Carries the command out; the result is how many bytes went to the room's front. One arm for each act: a table of
// closures would be no plainer.
#[tactic(auto, using(octets::specs::Put::put_nil))]
pub fn carry_out(image: &mut [u8], g: Geometry, act: Act, sent: &[u8], room: &mut [u8]) -> usize
    requires { Framed image.old g × Allowed image.old g sent.now (length room.old) act }
    ensures { (image.new ≡ leaves image.old g sent.now act) × (room.new ≡ put room.old 0 (hands image.old g sent.now act)) × (result ≡ length (hands image.old g sent.now act)) }
{
    match act {
        Act::Read(x) => return moves::read(Frame { image, g }, x, room),
        Act::Write(x) => moves::write(image, g, x, sent),
        Act::XpWrite(x) => moves::xpwrite(image, g, x, sent),
        Act::XdRead(x, i) => return moves::xdread(image, g, x, i, room),
        Act::Couple(x, y, mirror) => xdwrite::couple(image, g, x, y, mirror, sent),
        Act::Retain(x, i, mirror, ndisc) => xdwrite::retain(image, g, x, i, mirror, ndisc, sent),
        Act::Rebuild(x, j) => rebuild::rebuild(image, g, x, j, sent),
        Act::Regenerate(x, j, i) => rebuild::regenerate(image, g, x, j, i, sent),
        Act::XdWriteRead(x, disable) => return xdwrite::xdwriteread(
            image, g, x, disable, sent, room,
        ),
    }
    // The others hand nothing out.
    0
}
