// XDWRITE(10) and XDWRITEREAD(10), and the slot that any XDWRITE which retains asks for.
ghost use Rattle.std.specs.Prelude.{◌≡◌};
ghost use Rattle.slots.specs.Find.{empty_slot};
ghost use Rattle.decide_one.specs.Stages.{retained_of, xdwrite_ten_of, xdwriteread_of};

use crate::Call;
use crate::plain::limited;
use geometry::Frame;
use meaning::{Act, Decision, Seen, Span, Stop, accept};
use sense::Answer;

pub fn xdwrite_ten(call: Call<'_>) -> Decision
    ensures { let c = call.entry in result ≡ xdwrite_ten_of c.shelf.image.now c.shelf.g c.target c.command c.sent.now }
{
    limited(call, call.shelf.g.m, call.bytes())?;
    retained(call.shelf, call.span(), false, call.command.disable())
}

// It takes no slot: the room takes the result.
pub fn xdwriteread(call: Call<'_>) -> Decision
    ensures { let c = call.entry in result ≡ xdwriteread_of c.shelf.g c.target c.command c.sent.now c.room }
{
    limited(call, call.shelf.g.m, call.bytes())?;
    call.roomy()?;
    accept(Act::XdWriteRead(call.span(), call.command.disable()))
}

// Check 9: the lowest-numbered empty slot takes the result of the blocks of x; ndisc is NDisc or
// DISABLE WRITE.
pub fn retained(shelf: Frame<'_>, x: Span, mirror: bool, ndisc: bool) -> Decision
    ensures { let c = shelf.entry in result ≡ retained_of (empty_slot c.image.now c.g) x mirror ndisc }
{
    let free = slots::empty_slot(shelf);
    let i = free.ok_or(Stop::at(9, Seen::Dash, Answer::Busy))?;
    accept(Act::Retain(x, i, mirror, ndisc))
}
