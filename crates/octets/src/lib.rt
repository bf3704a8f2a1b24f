// Bytes: the leaves that every read and every change of a shelf's image goes through.
//
// Their contracts are single equations in the vocabulary of `specs/`: `part` (a range read), `put`
// (a range written), `⊻` (XOR, the shorter list filled up with zeros), `be n` and `to_be n`
// (big-endian numbers). Only the functions named `_at` lend a part of a mutable slice.

#![tactic(auto)]

mod new;
mod number;

ghost use Rattle.std.specs.Prelude.{◌≡◌, [], ◌∷◌, ◌+◌, ◌≤◌, min, length, replicate};
ghost use Rattle.octets.specs.Part.{part};
ghost use Rattle.octets.specs.Put.{put};
ghost use Rattle.octets.specs.Xor.{◌⊻◌};
ghost use Rattle.octets.specs.Operands.{xor_all};
ghost use Rattle.octets.specs.Eight.{eight_parts, EightIn};

pub use new::keep_new;
pub use number::{be, byte, put_be, to_be};

// XORs src into dst. It has no locals but what its loop goes by, so its stack does not grow with the block. The loops here go by `enumerate`:
// of what `zip` takes from `iter_mut` a proof knows nothing afterwards.
#[tactic(auto, using(crate::specs::Xor::xor_more, crate::specs::Xor::xor_nil))]
pub fn xor_into(dst: &mut [u8], src: &[u8])
    requires { length dst.old ≡ length src.now }
    ensures { dst.new ≡ dst.old ⊻ src.now }
{
    for (i, d) in dst.iter_mut().enumerate() {
        *d ^= src[i];
    }
}

// XORs a and b into dst, in one pass over it. One function that takes the XOR as a closure would be no shorter: each loop is three
// lines, and the clauses on such a closure are longer.
fn xor_two_into(dst: &mut [u8], a: &[u8], b: &[u8])
    requires { (length dst.old ≡ length a.now) × (length dst.old ≡ length b.now) }
    ensures { dst.new ≡ dst.old ⊻ (a.now ⊻ b.now) }
{
    for (i, d) in dst.iter_mut().enumerate() {
        *d ^= a[i] ^ b[i];
    }
}

// XORs a, b, c and d into dst, two in a pass: dst is loaded and stored twice, not four times. A loop over all five blocks would take
// more stack, where C calls it, than an interrupt handler has.
#[tactic(auto, using(crate::specs::Xor::xor_regroups, crate::specs::Xor::xor_nil), unfolding(crate::specs::Operands::xor_all))]
pub fn xor_four_into(dst: &mut [u8], a: &[u8], b: &[u8], c: &[u8], d: &[u8])
    requires { (length dst.old ≡ length a.now) × (length dst.old ≡ length b.now) × (length dst.old ≡ length c.now) × (length dst.old ≡ length d.now) }
    ensures { dst.new ≡ dst.old ⊻ xor_all (a.now ∷ b.now ∷ c.now ∷ d.now ∷ []) }
{
    xor_two_into(dst, a, b);
    xor_two_into(dst, c, d);
}

// Writes the XOR of a and b over dst, in one pass: dst is stored once, and not loaded.
pub fn xor_over(dst: &mut [u8], a: &[u8], b: &[u8])
    requires { (length dst.old ≡ length a.now) × (length dst.old ≡ length b.now) }
    ensures { dst.new ≡ a.now ⊻ b.now }
{
    for (i, d) in dst.iter_mut().enumerate() {
        *d = a[i] ^ b[i];
    }
}

// Writes over dst the XOR of the bytes of xs from eight indices on, in one pass: dst is stored once, and not loaded. The indices
// are no array: the clauses name each, and would be longer.
pub fn xor_eight_over(
    dst: &mut [u8],
    xs: &[u8],
    a: usize,
    b: usize,
    c: usize,
    d: usize,
    e: usize,
    f: usize,
    g: usize,
    h: usize,
)
    requires { EightIn xs.now a b c d e f g h (length dst.old) }
    ensures { dst.new ≡ xor_all (eight_parts xs.now a b c d e f g h (length dst.old)) }
{
    for (i, x) in dst.iter_mut().enumerate() {
        let last = xs[e + i] ^ (xs[f + i] ^ (xs[g + i] ^ xs[h + i]));
        *x = xs[a + i] ^ (xs[b + i] ^ (xs[c + i] ^ (xs[d + i] ^ last)));
    }
}

// Copies src over dst. It stays beside std's `copy_from_slice`, as `fill_zero` and `least` beside `fill` and `min`, since each is
// promised by name (`copy_into_once` and so on).
pub fn copy_into(dst: &mut [u8], src: &[u8])
    requires { length dst.old ≡ length src.now }
    ensures { dst.new ≡ src.now }
{
    dst.copy_from_slice(src);
}

// Fills dst with zeros.
pub fn fill_zero(dst: &mut [u8])
    ensures { dst.new ≡ replicate (length dst.old) 0 }
{
    dst.fill(0);
}

// The forms at an index, from here on, are one or two lines each: one that takes the leaf as a closure would be no shorter.
//
// XORs src into the bytes of xs from index at on.
#[tactic(auto, using(crate::specs::Put::put_back, crate::specs::Part::mid_part))]
pub fn xor_at(xs: &mut [u8], at: usize, src: &[u8])
    requires { at + length src.now ≤ length xs.old }
    ensures { xs.new ≡ put xs.old at (part xs.old at (length src.now) ⊻ src.now) }
{
    let n = src.len();
    xor_into(&mut xs[at..at + n], src);
}

// Writes src over the bytes of xs from index at on.
#[tactic(auto, using(crate::specs::Put::put_back))]
pub fn put_at(xs: &mut [u8], at: usize, src: &[u8])
    requires { at + length src.now ≤ length xs.old }
    ensures { xs.new ≡ put xs.old at src.now }
{
    copy_into(&mut xs[at..at + src.len()], src);
}

// XORs the bytes of xs from index at on into acc.
#[tactic(auto, using(crate::specs::Part::mid_part))]
pub fn xor_from(acc: &mut [u8], xs: &[u8], at: usize)
    requires { at + length acc.old ≤ length xs.now }
    ensures { acc.new ≡ acc.old ⊻ part xs.now at (length acc.old) }
{
    let n = acc.len();
    xor_into(acc, &xs[at..at + n]);
}

// XORs the bytes of xs from four indices on into acc.
#[tactic(auto, using(crate::specs::Part::mid_part))]
pub fn xor_four_from(acc: &mut [u8], xs: &[u8], a: usize, b: usize, c: usize, d: usize)
    requires { (a + length acc.old ≤ length xs.now) × (b + length acc.old ≤ length xs.now) × (c + length acc.old ≤ length xs.now) × (d + length acc.old ≤ length xs.now) }
    ensures { acc.new ≡ acc.old ⊻ xor_all (part xs.now a (length acc.old) ∷ part xs.now b (length acc.old) ∷ part xs.now c (length acc.old) ∷ part xs.now d (length acc.old) ∷ []) }
{
    let n = acc.len();
    xor_four_into(
        acc,
        &xs[a..a + n],
        &xs[b..b + n],
        &xs[c..c + n],
        &xs[d..d + n],
    );
}

// Writes over acc the XOR of the bytes of xs from index a on and those of ys from index b on.
#[tactic(auto, using(crate::specs::Part::mid_part))]
pub fn xor_both(acc: &mut [u8], xs: &[u8], a: usize, ys: &[u8], b: usize)
    requires { (a + length acc.old ≤ length xs.now) × (b + length acc.old ≤ length ys.now) }
    ensures { acc.new ≡ part xs.now a (length acc.old) ⊻ part ys.now b (length acc.old) }
{
    let n = acc.len();
    xor_over(acc, &xs[a..a + n], &ys[b..b + n]);
}

// Copies the bytes of xs from index at on over acc.
#[tactic(auto, using(crate::specs::Part::mid_part))]
pub fn copy_from(acc: &mut [u8], xs: &[u8], at: usize)
    requires { at + length acc.old ≤ length xs.now }
    ensures { acc.new ≡ part xs.now at (length acc.old) }
{
    let n = acc.len();
    copy_into(acc, &xs[at..at + n]);
}

// The smaller number.
pub fn least(a: usize, b: usize) -> usize
    ensures { result ≡ min a b }
{
    a.min(b)
}
