// Checks 6 and 7: the parameter list.
ghost use Rattle.std.specs.Prelude.{◌≡◌, ◌+◌, ◌*◌, ◌≤◌, length};
ghost use Rattle.meaning.specs.Sources.{own_entry};
ghost use Rattle.decide_list.specs.Stages.{list_sized_of, headed_of, owned_of};

use crate::sources;
use decide_one::Call;
use meaning::{Decision, Seen, Stop, check};
use sense::Answer;

// No byte of a list below 8 bytes is read.
pub fn listed(call: Call<'_>, keep: bool) -> Decision
    requires { call.command.list ≤ length call.sent.now }
    ensures { let c = call.entry in result ≡ list_sized_of keep c.shelf.image.now c.shelf.g c.target c.command c.sent.now }
{
    let list = call.command.list;
    check(list == 0, 6, Seen::Cdb(7), Answer::Good)?;
    check(list < 8, 7, Seen::Cdb(7), Answer::BadListLength)?;
    headed(call, keep)
}

// Its first four bytes: how many sources, the entry type, and what must be zero.
fn headed(call: Call<'_>, keep: bool) -> Decision
    requires { (call.command.list ≤ length call.sent.now) × (8 ≤ call.command.list) }
    ensures { let c = call.entry in result ≡ headed_of keep c.shelf.image.now c.shelf.g c.target c.command c.sent.now }
{
    let sent = call.sent;
    let n = octets::byte(sent, 0);
    let kind = octets::byte(sent, 1);
    let zeros = octets::be::<2>(sent, 2);
    let list = call.command.list;
    check(list != 8 + 8 * n, 7, Seen::Cdb(7), Answer::BadListLength)?;
    check(n == 0, 7, Seen::List(0), Answer::BadList)?;
    check(kind != 1, 7, Seen::List(1), Answer::BadList)?;
    check(zeros != 0, 7, Seen::List(2), Answer::BadList)?;
    owned(call, keep, n)
}

// A source that is the target is refused wherever it stands. After the length the command has its own
// block, and its length is resolved.
fn owned(call: Call<'_>, keep: bool, n: usize) -> Decision
    requires { 8 + 8 * n ≤ length call.sent.now }
    ensures { let c = call.entry in result ≡ owned_of keep n (own_entry c.shelf.image.now c.shelf.g c.command.came c.sent.now n c.target) c.shelf.image.now c.shelf.g c.target c.command c.sent.now }
{
    let k = call.command;
    let own = list_entries::own_entry(call.shelf, k.came, call.sent, n, call.target);
    if let Some(i) = own {
        return Err(Stop::at(7, Seen::Entry(i, 0), Answer::BadList));
    }
    check(k.count == 0, 7, Seen::Cdb(2), Answer::Good)?;
    let placed = k.own(call.sent);
    let command = placed.resolve(call.shelf.g);
    // each field by itself: a struct with a ghost field takes no `..call`
    let resolved = Call {
        shelf: call.shelf,
        target: call.target,
        command,
        sent: call.sent,
        room: call.room,
    };
    sources::placed(resolved, keep, n)
}
