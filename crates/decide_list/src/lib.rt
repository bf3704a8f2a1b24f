// 01's checks 4 to 11 of REBUILD and REGENERATE, but for the bits of byte 1 that must be zero. The two
// differ in which lengths are refused and in that REGENERATE keeps its result: `keep` says which it is.

#![tactic(auto)]

mod list;
mod sources;

ghost use Rattle.std.specs.Prelude.{◌≡◌};
ghost use Rattle.decide_list.specs.Stages.{unbounded, rebuild_of, regenerate_of, fields_of};

use command::Command;
use decide_one::Call;
use meaning::{Decision, Seen, check};
use sense::Answer;

pub fn rebuild(call: Call<'_>) -> Decision
    ensures { let c = call.entry in result ≡ rebuild_of c.shelf.image.now c.shelf.g c.target c.command c.sent.now }
{
    fields(call, false, unbounded(call.command))
}

pub fn regenerate(call: Call<'_>) -> Decision
    ensures { let c = call.entry in result ≡ regenerate_of c.shelf.image.now c.shelf.g c.target c.command c.sent.now }
{
    fields(call, true, call.shelf.g.m < call.command.count)
}

// Is it the length FFFFFFFFh with Int Data?
fn unbounded(k: Command) -> bool
    ensures { result ≡ unbounded k }
{
    k.int() & (k.count == 0xFFFFFFFF)
}

// Checks 4 and 5. The length is refused where `long` says so.
fn fields(call: Call<'_>, keep: bool, long: bool) -> Decision
    ensures { let c = call.entry in result ≡ fields_of keep long c.shelf.image.now c.shelf.g c.target c.command c.sent.now }
{
    let k = call.command;
    let sec = k.list_sec();
    let due = k.list_bytes(call.shelf.g);
    check(sec == 1, 4, Seen::Cdb(1), Answer::BadField)?;
    check(sec == 3, 4, Seen::Cdb(1), Answer::BadField)?;
    check(long, 4, Seen::Cdb(2), Answer::BadField)?;
    check(k.six != 0, 4, Seen::Cdb(6), Answer::BadField)?;
    check(k.control != 0, 4, Seen::Cdb(9), Answer::BadField)?;
    check(call.sent.len() != due, 5, Seen::Dash, Answer::WrongCount)?;
    list::listed(call, keep)
}
