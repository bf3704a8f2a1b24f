// Is it a shelf? Every byte string gets an answer, and no caller has checked anything.

#![tactic(auto)]

ghost use Rattle.std.specs.Prelude.{◌≡◌, true, false, MatchOption};
ghost use Rattle.geometry.specs.Header.{geometry_of};
ghost use Rattle.image.specs.Valid.{valid_image};

use geometry::{Frame, Geometry};

pub fn valid(image: &[u8]) -> bool
    ensures { result ≡ valid_image image.now }
{
    let Some(shelf) = Frame::of(image) else {
        return false;
    };
    if !drives::table_ok(shelf) {
        return false;
    }
    slots::slots_ok(shelf)
}

// The image with its header, where it is a shelf's.
pub fn shelf_in(image: &[u8]) -> Option<Frame<'_>>
    ensures { MatchOption result (valid_image image.now ≡ false) (λ f. (valid_image image.now ≡ true) × (f.image ≡ image.entry) × (f.g ≡ geometry_of image.now)) }
{
    if !valid(image) {
        return None;
    }
    let g = Geometry::read(image);
    Some(Frame { image, g })
}
