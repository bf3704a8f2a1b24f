// XDWRITE's result, piece by piece: no copy of the whole range is made. The data is written after all of
// it, so that the old blocks stand while they are read.
ghost use Rattle.std.specs.Prelude.{◌≡◌, cond, [], ◌+◌, ◌≤◌, length};
ghost use Rattle.octets.specs.Part.{part};
ghost use Rattle.octets.specs.Put.{put};
ghost use Rattle.meaning.specs.Acts.{mixed};
ghost use Rattle.act.specs.Pass.{laid_of, passed_of, Passable};
ghost use Rattle.act.specs.PassTurns.{laid_of_short, still_passable, laid_ahead};

use passes::Piecewise;

// The result of the bytes sent over those at index from goes to index to, with adds XORed into what
// is there.
#[derive(Clone, Copy)]
pub struct Pass {
    pub from: usize,
    pub to: usize,
    pub mirror: bool,
    pub adds: bool,
}

// A result, and the bytes sent for it.
#[derive(Clone, Copy)]
struct Passing<'a> {
    sent: &'a [u8],
    pass: Pass,
}

impl<'a> Piecewise for Passing<'a> {
    ghost to = { λ p. p.pass.to };

    ghost size = { λ p. length p.sent.now };

    ghost Fits = { λ p s. Passable s p.sent.now p.pass };

    ghost whole = { λ p s. laid_of s p.sent.now p.pass };

    #[tactic(auto, using(crate::specs::PassTurns::fill_plain, crate::specs::PassTurns::fill_adds))]
    fn fill(&self, image: &[u8], o: usize, acc: &mut [u8]) {
        let Pass {
            from,
            to,
            mirror,
            adds,
        } = self.pass;
        mix(acc, image, from + o, mirror, self.sent, o);
        if adds {
            octets::xor_from(acc, image, to + o);
        }
    }

    ghost laws = { record {
      inside = λ p s h. h.to_in;
      short = λ p s h. laid_of_short s p.sent.now p.pass h;
      fits = λ p s ys h l. still_passable s p.sent.now p.pass h ys;
      ahead = λ p s ys o k h. laid_ahead s p.sent.now p.pass h ys o k;
    } };
}

// All of it.
#[tactic(auto, unfolding(crate::specs::Pass::passed_of))]
pub fn pass_on(image: &mut [u8], sent: &[u8], p: Pass)
    requires { Passable image.old sent.now p }
    ensures { image.new ≡ passed_of image.old sent.now p }
{
    passes::by_pieces(image, p.to, sent.len(), &Passing { sent, pass: p });
}

// The result's bytes: those sent from o on, without mirror XORed to those at index from.
pub fn mix(acc: &mut [u8], image: &[u8], from: usize, mirror: bool, sent: &[u8], o: usize)
    requires { (from + length acc.old ≤ length image.now) × (o + length acc.old ≤ length sent.now) }
    ensures { acc.new ≡ mixed mirror (part sent.now o (length acc.old)) (part image.now from (length acc.old)) }
{
    if mirror {
        octets::copy_from(acc, sent, o);
    } else {
        octets::xor_both(acc, sent, o, image, from);
    }
}

// With writes, the bytes sent go to index at.
#[tactic(auto, using(octets::specs::Put::put_nil))]
pub fn write_data(image: &mut [u8], at: usize, writes: bool, sent: &[u8])
    requires { at + length sent.now ≤ length image.old }
    ensures { image.new ≡ put image.old at (cond writes sent.now []) }
{
    if writes {
        octets::put_at(image, at, sent);
    }
}
