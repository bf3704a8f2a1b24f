// Checks 8 to 10 of a command with its own block and a resolved length, and n sources.
ghost use Rattle.std.specs.Prelude.{◌≡◌, ◌+◌, ◌*◌, ◌≤◌, length};
ghost use Rattle.slots.specs.Find.{empty_slot};
ghost use Rattle.sense.specs.declared.Answer.TheVariants.{Good};
ghost use Rattle.meaning.specs.Decision.{go};
ghost use Rattle.meaning.specs.Sources.{first_bad};
ghost use Rattle.meaning.specs.Checks.{sum_of};
ghost use Rattle.decide_list.specs.Stages.{fault_or, placed_of, regenerated_of};

use command::Command;
use decide_one::Call;
use meaning::{Act, Decision, Seen, Stop, Summing, accept, check};
use sense::Answer;

pub fn placed(call: Call<'_>, keep: bool, n: usize) -> Decision
    requires { 8 + 8 * n ≤ length call.sent.now }
    ensures { let c = call.entry in result ≡ placed_of keep n c.shelf.image.now c.shelf.g c.target c.command c.sent.now }
{
    let k = call.command;
    let end = k.block.0 + k.count;
    check(call.shelf.g.b < end, 8, Seen::List(4), Answer::BadRange)?;
    if keep {
        return regenerated(call, n);
    }
    sourced(call, n, Act::Rebuild(call.span(), sum_of(k)))
}

// What is summed besides the list.
fn sum_of(k: Command) -> Summing
    ensures { result ≡ sum_of k }
{
    Summing {
        int: k.int(),
        came: k.came,
    }
}

// The lowest-numbered empty slot takes the result.
fn regenerated(call: Call<'_>, n: usize) -> Decision
    requires { 8 + 8 * n ≤ length call.sent.now }
    ensures { let c = call.entry in result ≡ regenerated_of n (empty_slot c.shelf.image.now c.shelf.g) c.shelf.image.now c.shelf.g c.target c.command c.sent.now }
{
    let free = slots::empty_slot(call.shelf);
    let i = free.ok_or(Stop::at(9, Seen::Dash, Answer::Busy))?;
    let act = Act::Regenerate(call.span(), sum_of(call.command), i);
    sourced(call, n, act)
}

// The first source with a fault decides; where none has one the command goes.
fn sourced(call: Call<'_>, n: usize, act: Act) -> Decision
    requires { 8 + 8 * n ≤ length call.sent.now }
    ensures { let c = call.entry in result ≡ fault_or (first_bad c.shelf.image.now c.shelf.g c.command.came c.sent.now c.command.count 0 n) (go act Good) }
{
    let k = call.command;
    list_entries::first_bad(call.shelf, k.came, call.sent, n, k.count)?;
    accept(act)
}
