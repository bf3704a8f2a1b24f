// Checks 4 to 11, by the command's own code.
ghost use Rattle.std.specs.Prelude.{◌≡◌};
ghost use Rattle.decide.specs.Stages.{each_of, flagged_of};

use command::Op;
use decide_one::Call;
use meaning::{Decision, Seen, Stop, check};
use sense::Answer;

// The bits of byte 1 that must be zero, and then what the code's own checks say.
pub fn each(call: Call<'_>) -> Decision
    ensures { let c = call.entry in result ≡ flagged_of c.command.op c.shelf.image.now c.shelf.g c.target c.command c.sent.now c.room }
{
    let k = call.command;
    let bits = command::zero_bits(k.op);
    check(k.flags & bits != 0, 4, Seen::Cdb(1), Answer::BadField)?;
    by_code(call)
}

// One arm for each operation: a table of closures would be no plainer.
fn by_code(call: Call<'_>) -> Decision
    ensures { let c = call.entry in result ≡ each_of c.command.op c.shelf.image.now c.shelf.g c.target c.command c.sent.now c.room }
{
    match call.command.op {
        Op::XdWrite => decide_two::xdwrite(call),
        Op::XpWrite => decide_one::xpwrite(call),
        Op::XdRead => decide_one::xdread(call),
        Op::Rebuild => decide_list::rebuild(call),
        Op::Regenerate => decide_list::regenerate(call),
        Op::Read => decide_one::read(call),
        Op::Write => decide_one::write(call),
        Op::XdWriteTen => decide_one::xdwrite_ten(call),
        Op::XdWriteRead => decide_one::xdwriteread(call),
        Op::Unknown => Err(Stop::at(2, Seen::Cdb(0), Answer::UnknownCode)),
    }
}
