// REBUILD and REGENERATE.
ghost use Rattle.std.specs.Prelude.{◌≡◌};
ghost use Rattle.geometry.specs.Frame.{Framed};
ghost use Rattle.meaning.specs.declared.Act.TheVariants.{Rebuild, Regenerate};
ghost use Rattle.meaning.specs.Acts.{leaves};
ghost use Rattle.meaning.specs.Allowed.{Allowed};

use crate::keep::entry_of;
use gather::Job;
use geometry::{Frame, Geometry, RECORD};
use meaning::{Span, Summing};

// REBUILD: the XOR of the sources goes to the blocks of x.
#[tactic(auto, using(crate::specs::Rebuild::rebuilt_by))]
pub fn rebuild(image: &mut [u8], g: Geometry, x: Span, j: Summing, sent: &[u8])
    requires { Framed image.old g × Allowed image.old g sent.now 0 (Rebuild x j) }
    ensures { image.new ≡ leaves image.old g sent.now (Rebuild x j) }
{
    let job = Job {
        own: None,
        to: g.place(x.drive, x.block),
        count: x.count,
        sources: octets::byte(sent, 0),
        sum: j,
    };
    gather::gather(image, g, sent, job);
}

// REGENERATE: the XOR of the sources and of the blocks of x goes to slot i.
#[tactic(auto, using(crate::specs::Rebuild::regenerated_by))]
pub fn regenerate(image: &mut [u8], g: Geometry, x: Span, j: Summing, i: usize, sent: &[u8])
    requires { Framed image.old g × Allowed image.old g sent.now 0 (Regenerate x j i) }
    ensures { image.new ≡ leaves image.old g sent.now (Regenerate x j i) }
{
    let entry = entry_of(Frame { image, g }, 2, x);
    let at = g.slot_at(i);
    let job = Job {
        own: Some(g.place(x.drive, x.block)),
        to: at + RECORD,
        count: x.count,
        sources: octets::byte(sent, 0),
        sum: j,
    };
    gather::gather(image, g, sent, job);
    slots::write_record(image, at, entry);
}
