// The XOR of many parts of one slice, in few passes: eight parts at once where there are as many, four
// of the others at once, and then one by one. And bytes that go to a range of an image piece by piece.

#![tactic(auto)]

mod pieces;

ghost use Rattle.std.specs.Prelude.{◌≡◌, ◌+◌, ◌<◌, ◌≤◌, length};
ghost use Rattle.octets.specs.Xor.{◌⊻◌};
ghost use Rattle.octets.specs.Operands.{xor_all};
ghost use Rattle.passes.specs.Parts.{parts_from, parts_at, Within};

pub use pieces::{PIECE, Piecewise, by_pieces};

// Writes over acc the XOR of the parts of xs, one at each place: as many bytes as acc has, from byte o
// of the part on. There is one place at least.
pub fn xor_parts(acc: &mut [u8], xs: &[u8], places: &[usize], o: usize)
    requires { Within xs.now places.now (o + length acc.old) × (0 < length places.now) }
    ensures { acc.new ≡ xor_all (parts_at xs.now places.now o (length acc.old)) }
{
    let n = xor_first(acc, xs, places, o);
    let mut left = &places[n..];
    while let [a, b, c, d, rest @ ..] = left {
        octets::xor_four_from(acc, xs, *a + o, *b + o, *c + o, *d + o);
        left = rest;
    }
    for p in left {
        octets::xor_from(acc, xs, *p + o);
    }
}

// Writes over acc the XOR of the first eight parts or, where there are fewer, the first; the result is
// how many parts that were.
fn xor_first(acc: &mut [u8], xs: &[u8], places: &[usize], o: usize) -> usize
    requires { Within xs.now places.now (o + length acc.old) × (0 < length places.now) }
    ensures { (acc.new ≡ xor_all (parts_from xs.now places.now o (length acc.old) 0 result)) × (0 < result) × (result ≤ length places.now) }
{
    if let [a, b, c, d, e, f, g, h, ..] = places {
        octets::xor_eight_over(
            acc,
            xs,
            *a + o,
            *b + o,
            *c + o,
            *d + o,
            *e + o,
            *f + o,
            *g + o,
            *h + o,
        );
        return 8;
    }
    octets::copy_from(acc, xs, places[0] + o);
    1
}
