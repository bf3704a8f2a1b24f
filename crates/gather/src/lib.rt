// The XOR of the sources of REBUILD and REGENERATE, by a plain path and by a faster one that leaves the
// same.

#![tactic(auto)]

mod operands;
mod paths;

ghost use Rattle.std.specs.Prelude.{◌≡◌};
ghost use Rattle.octets.specs.Put.{put};
ghost use Rattle.gather.specs.Job.{summed, Ready};

use geometry::{Frame, Geometry};
use meaning::Summing;
use operands::Gathering;
use passes::{PIECE, by_pieces};
use paths::{AtOnce, InTurn};

// What is gathered: the sources of a list and, with Int Data, the bytes after the list, `count` blocks of
// each, and the blocks at index own, where there is one. The XOR goes to index to.
#[derive(Clone, Copy)]
pub struct Job {
    pub own: Option<usize>,
    pub to: usize,
    pub count: usize,
    pub sources: usize,
    pub sum: Summing,
}

// What these three ask, `Ready`, stays a clause: they write the image, and that operands lie apart is one of two facts
// each, which no ghost field can hold.
//
// The XOR goes to its place. Here it is said which path the step takes: the plain one where one piece
// holds the range, and at most eight sources keep its recursion flat; else the faster one.
pub fn gather(image: &mut [u8], g: Geometry, sent: &[u8], j: Job)
    requires { Ready image.old g sent.now j }
    ensures { image.new ≡ put image.old j.to (summed image.old g sent.now j) }
{
    if (j.count * g.l <= PIECE) & (j.sources <= 8) {
        in_turn(image, g, sent, j)
    } else {
        at_once(image, g, sent, j)
    }
}

// The plain path: source entry by source entry, each looked up when its turn comes, so that no place is
// known before.
pub fn in_turn(image: &mut [u8], g: Geometry, sent: &[u8], j: Job)
    requires { Ready image.old g sent.now j }
    ensures { image.new ≡ put image.old j.to (summed image.old g sent.now j) }
{
    by_pieces(image, j.to, j.count * g.l, &InTurn { g, sent, job: j });
}

// The faster path: each address is looked up once, and then up to eight operands are XORed in one pass.
// A list has at most 255 entries, and the target's own blocks are one operand more: memory is fixed, so there
// is room for that many places.
pub fn at_once(image: &mut [u8], g: Geometry, sent: &[u8], job: Job)
    requires { Ready image.old g sent.now job }
    ensures { image.new ≡ put image.old job.to (summed image.old g sent.now job) }
{
    let mut places = [0usize; 256];
    let mut n = job.sources;
    let shelf = Frame { image, g };
    Gathering { shelf, sent, job }.find_all(&mut places[..n]);
    if let Some(from) = job.own {
        places[n] = from;
        n += 1;
    }
    let places = &places[..n];
    by_pieces(
        image,
        job.to,
        job.count * g.l,
        &AtOnce {
            g,
            sent,
            job,
            places,
        },
    );
}
