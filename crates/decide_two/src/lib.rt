// 01's checks 4 to 11 of XDWRITE, but for the bits of byte 1 that must be zero: its result goes to the
// secondary, or with Sec Ctl 11 into a slot.

#![tactic(auto)]

ghost use Rattle.std.specs.Prelude.{◌≡◌};
ghost use Rattle.decide_two.specs.Stages.{OnShelf, xdwrite_of, limited_of, from_check_9, check_10_of};

use decide_one::Call;
use meaning::{Act, Decision, Seen, Span, Stop, accept, check};
use sense::Answer;

// The secondary is looked up unless Sec Ctl is 11, where its fields are ignored.
pub fn xdwrite(call: Call<'_>) -> Decision
    ensures { let c = call.entry in result ≡ xdwrite_of c.shelf.image.now c.shelf.g c.target c.command c.sent.now }
{
    let k = call.command;
    let sec = k.sec();
    check(sec == 1, 4, Seen::Cdb(1), Answer::BadField)?;
    if sec == 3 {
        return limited(call, false, None);
    }
    check(k.ndisc(), 4, Seen::Cdb(1), Answer::BadField)?;
    let there = drives::find_secondary(call.shelf, k.came, k.second);
    limited(call, list_entries::is_at(there, call.target), there)
}

// From the length on; `there` is what the lookup of the secondary gave, and `own` that it is the target (`limited_of`
// takes both: where nothing is looked up neither is asked).
fn limited(call: Call<'_>, own: bool, there: Option<usize>) -> Decision
    requires { OnShelf call.shelf.g there }
    ensures { let c = call.entry in result ≡ limited_of own there c.shelf.image.now c.shelf.g c.target c.command c.sent.now }
{
    let k = call.command;
    check(call.shelf.g.m < k.count, 4, Seen::Cdb(6), Answer::BadField)?;
    check(own, 4, Seen::Cdb(8), Answer::BadField)?;
    check(k.control != 0, 4, Seen::Cdb(15), Answer::BadField)?;
    let due = call.bytes();
    check(call.sent.len() != due, 5, Seen::Dash, Answer::WrongCount)?;
    check(k.count == 0, 6, Seen::Cdb(6), Answer::Good)?;
    let end = k.block.0 + k.count;
    check(call.shelf.g.b < end, 8, Seen::Cdb(2), Answer::BadRange)?;
    from_check_9(call, there)
}

// Where the result goes: check 9 of the slot, or check 10 of the secondary.
fn from_check_9(call: Call<'_>, there: Option<usize>) -> Decision
    requires { OnShelf call.shelf.g there }
    ensures { let c = call.entry in result ≡ from_check_9 there c.shelf.image.now c.shelf.g c.target c.command }
{
    let k = call.command;
    if k.sec() == 3 {
        return decide_one::retained(call.shelf, call.span(), k.mirror(), k.ndisc());
    }
    let i = there.ok_or(Stop::at(10, Seen::Cdb(8), Answer::NestedAddress))?;
    check_10(call, i, drives::is_failed(call.shelf, i))
}

// It is drive j; `check_10_of` takes its state beside it.
fn check_10(call: Call<'_>, j: usize, failed: bool) -> Decision
    ensures { let c = call.entry in result ≡ check_10_of j failed c.shelf.g c.target c.command }
{
    let k = call.command;
    check(failed, 10, Seen::Drive(j), Answer::NestedFailed)?;
    let end = k.spot.0 + k.count;
    check(call.shelf.g.b < end, 10, Seen::Cdb(11), Answer::NestedRange)?;
    let copy = Span {
        drive: j,
        block: k.spot,
        count: k.count,
    };
    accept(Act::Couple(call.span(), copy, k.mirror()))
}
