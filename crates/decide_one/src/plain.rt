// READ, WRITE and XPWRITE.
ghost use Rattle.std.specs.Prelude.{◌≡◌};
ghost use Rattle.decide_one.specs.Stages.{limited_verdict, read_of, write_of, xpwrite_of};

use crate::Call;
use meaning::{Act, Decision, Seen, Stop, accept, check};
use sense::Answer;

pub fn read(call: Call<'_>) -> Decision
    ensures { let c = call.entry in result ≡ read_of c.shelf.g c.target c.command c.sent.now c.room }
{
    limited(call, call.command.count, 0)?;
    call.roomy()?;
    accept(Act::Read(call.span()))
}

pub fn write(call: Call<'_>) -> Decision
    ensures { let c = call.entry in result ≡ write_of c.shelf.g c.target c.command c.sent.now }
{
    limited(call, call.command.count, call.bytes())?;
    accept(Act::Write(call.span()))
}

pub fn xpwrite(call: Call<'_>) -> Decision
    ensures { let c = call.entry in result ≡ xpwrite_of c.shelf.g c.target c.command c.sent.now }
{
    limited(call, call.shelf.g.m, call.bytes())?;
    accept(Act::XpWrite(call.span()))
}

// No more blocks than `limit`, which of a command without one is its own length, and `due` bytes sent.
pub fn limited(call: Call<'_>, limit: usize, due: usize) -> Result<(), Stop>
    ensures { let c = call.entry in result ≡ limited_verdict limit due c.shelf.g c.command c.sent.now }
{
    let k = call.command;
    check(k.six != 0, 4, Seen::Cdb(6), Answer::BadField)?;
    check(limit < k.count, 4, Seen::Cdb(7), Answer::BadField)?;
    check(k.control != 0, 4, Seen::Cdb(9), Answer::BadField)?;
    check(call.sent.len() != due, 5, Seen::Dash, Answer::WrongCount)?;
    check(k.count == 0, 6, Seen::Cdb(7), Answer::Good)?;
    let end = k.block.0 + k.count;
    check(call.shelf.g.b < end, 8, Seen::Cdb(2), Answer::BadRange)
}
