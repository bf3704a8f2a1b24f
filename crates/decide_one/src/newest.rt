// XDREAD.
ghost use Rattle.std.specs.Prelude.{◌≡◌};
ghost use Rattle.slots.specs.Find.{newest_of};
ghost use Rattle.decide_one.specs.Stages.{xdread_of, matched_of};

use crate::Call;
use meaning::{Act, Decision, Seen, Stop, accept, check};
use sense::Answer;

pub fn xdread(call: Call<'_>) -> Decision
    ensures { let c = call.entry in result ≡ xdread_of c.shelf.image.now c.shelf.g c.target c.command c.sent.now c.room }
{
    check(call.command.six != 0, 4, Seen::Cdb(6), Answer::BadField)?;
    check(call.command.control != 0, 4, Seen::Cdb(9), Answer::BadField)?;
    check(call.sent.len() != 0, 5, Seen::Dash, Answer::WrongCount)?;
    matched(call)
}

// The newest result of the drive with that block number answers.
fn matched(call: Call<'_>) -> Decision
    ensures { let c = call.entry in result ≡ matched_of (newest_of c.shelf.image.now c.shelf.g c.target c.command.block.0) c.shelf.image.now c.shelf.g c.target c.command c.room }
{
    let k = call.command;
    let found = slots::newest(call.shelf, call.target, k.block);
    let i = found.ok_or(Stop::at(8, Seen::Cdb(2), Answer::BadField))?;
    let held = slots::read_slot(call.shelf, i);
    check(held.len != k.count, 8, Seen::Cdb(7), Answer::BadField)?;
    call.roomy()?;
    accept(Act::XdRead(call.span(), i))
}
