// A piece of the XOR, by the plain path and by the faster one.
ghost use Rattle.gather.specs.Job.{size, summed, Ready};
ghost use Rattle.gather.specs.Pieces.{AllKnown};
ghost use Rattle.gather.specs.Turns.{fits, ahead, known_kept};
ghost use Rattle.gather.specs.Whole.{summed_short};

use crate::Job;
use crate::operands::{Gathering, xor_int};
use geometry::{Frame, Geometry};
use passes::Piecewise;

// A job whose operands are looked up when their turn comes.
#[derive(Clone, Copy)]
pub struct InTurn<'a> {
    pub g: Geometry,
    pub sent: &'a [u8],
    pub job: Job,
}

// A job with the places of all operands in the image: of the sources and, behind them, of the own blocks.
#[derive(Clone, Copy)]
pub struct AtOnce<'a> {
    pub g: Geometry,
    pub sent: &'a [u8],
    pub job: Job,
    pub places: &'a [usize],
}

impl<'a> Piecewise for InTurn<'a> {
    ghost to = { λ p. p.job.to };

    ghost size = { λ p. size p.g p.job };

    ghost Fits = { λ p s. Ready s p.g p.sent.now p.job };

    ghost whole = { λ p s. summed s p.g p.sent.now p.job };

    #[tactic(auto, using(crate::specs::InTurn::in_turn_lem, crate::specs::Whole::piece_done))]
    fn fill(&self, image: &[u8], o: usize, acc: &mut [u8]) {
        let shelf = Frame { image, g: self.g };
        let job = self.job;
        let from = Gathering {
            shelf,
            sent: self.sent,
            job,
        };
        from.seed(acc, o);
        from.xor_rest(acc, 0, job.sources, o);
        xor_int(acc, job.sum.int, self.sent, 8 + 8 * job.sources, o);
    }

    ghost laws = { record {
      inside = λ p s r. r.to_in;
      short = λ p s r. summed_short s p.g p.sent.now p.job r.readable;
      fits = λ p s ys r. fits s p.g p.sent.now p.job r ys;
      ahead = λ p s ys o k r. ahead s p.g p.sent.now p.job r ys o k;
    } };
}

impl<'a> Piecewise for AtOnce<'a> {
    ghost to = { λ p. p.job.to };

    ghost size = { λ p. size p.g p.job };

    ghost Fits = { λ p s. Ready s p.g p.sent.now p.job × AllKnown s p.g p.sent.now p.job p.places.now };

    ghost whole = { λ p s. summed s p.g p.sent.now p.job };

    #[tactic(auto, using(crate::specs::AtOnce::at_once, crate::specs::AtOnce::known_within, crate::specs::Whole::piece_done))]
    fn fill(&self, image: &[u8], o: usize, acc: &mut [u8]) {
        let job = self.job;
        passes::xor_parts(acc, image, self.places, o);
        xor_int(acc, job.sum.int, self.sent, 8 + 8 * job.sources, o);
    }

    ghost laws = { record {
      inside = λ p s r. r.0.to_in;
      short = λ p s r. summed_short s p.g p.sent.now p.job r.0.readable;
      fits = λ p s ys r l. (fits s p.g p.sent.now p.job r.0 ys l, known_kept s p.g p.sent.now p.job r.0 ys l p.places.now r.1);
      ahead = λ p s ys o k r. ahead s p.g p.sent.now p.job r.0 ys o k;
    } };
}
