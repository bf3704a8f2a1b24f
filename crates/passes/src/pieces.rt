// Bytes that go to a range of an image piece by piece: in short pieces the machine fetches all operands side
// by side, and no copy of the whole range is made.
ghost use Rattle.std.specs.Prelude.{ℕ, List, ◌≡◌, ◌+◌, ◌≤◌, length};
ghost use Rattle.octets.specs.Part.{part};
ghost use Rattle.octets.specs.Put.{put};
ghost use Rattle.passes.specs.Pieces.{PieceLaws};

// How many bytes a piece has; the last one may have fewer.
pub const PIECE: usize = 512;

// Bytes that go to a range of an image, and are made of what the image holds, the range itself too.
pub trait Piecewise {
    // where the range starts, and how many bytes it has
    ghost to: { Self → ℕ };

    ghost size: { Self → ℕ };

    // what the image must be like
    ghost Fits: { Self → List ℕ → Type 0 };

    // what becomes of the range
    ghost whole: { Self → List ℕ → List ℕ };

    // Writes the bytes from byte o of the range on over acc, as many as it has.
    fn fill(&self, image: &[u8], o: usize, acc: &mut [u8])
        requires { Fits self.now image.now × (o + length acc.old ≤ size self.now) }
        ensures { acc.new ≡ part (whole self.now image.now) o (length acc.old) };

    ghost laws: { PieceLaws to size Fits whole };
}

// The n bytes go to their range, which starts at index at. The piece lives here, and nowhere else.
pub fn by_pieces<P: Piecewise>(image: &mut [u8], at: usize, n: usize, p: &P)
    requires { P.Fits p.now image.old × (at ≡ P.to p.now) × (n ≡ P.size p.now) }
    ensures { image.new ≡ put image.old at (P.whole p.now image.old) }
{
    let mut piece = [0u8; PIECE];
    for o in (0..n).step_by(PIECE) {
        let k = (n - o).min(PIECE);
        let acc = &mut piece[..k];
        p.fill(image, o, acc);
        octets::put_at(image, at + o, acc);
    }
}
