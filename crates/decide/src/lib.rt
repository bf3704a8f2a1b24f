// What becomes of a command: 01's checks in 01's order, on a shared image. No caller has checked
// anything.

#![tactic(auto)]

mod each;

ghost use Rattle.std.specs.Prelude.{◌≡◌, ◌<◌};
ghost use Rattle.meaning.specs.Checks.{decide_of};
ghost use Rattle.decide.specs.Called.{called_of};
ghost use Rattle.decide.specs.Stages.{from_call_3, from_check_2};

use command::{Command, Op};
use decide_one::Call;
use drives::Came;
use geometry::{Frame, Geometry};
use meaning::{Decision, Seen, Stop, check};
use sense::Answer;

// The two checks that a command, a reset and a marking have in common, calls 1 and 2: the answer, or the
// image's geometry and the target's index.
pub fn called(image: &[u8], came: Came) -> Result<(Geometry, usize), Answer>
    ensures { result ≡ called_of image.now came }
{
    let shelf = image::shelf_in(image).ok_or(Answer::BadImage)?;
    let t = drives::find_target(shelf, came).ok_or(Answer::NoTarget)?;
    Ok((shelf.g, t))
}

// The check that decides, where it was seen and the answer; or what is done.
pub fn decide(image: &[u8], came: Came, cdb: &[u8], sent: &[u8], room: usize) -> Decision
    ensures { result ≡ decide_of image.now came cdb.now sent.now room }
{
    match called(image, came) {
        Err(answer) => Err(Stop::at(1, Seen::Dash, answer)),
        Ok((g, t)) => from_call_3(Frame { image, g }, came, t, cdb, sent, room),
    }
}

// Call 3, of an empty CDB.
fn from_call_3(
    shelf: Frame<'_>,
    came: Came,
    t: usize,
    cdb: &[u8],
    sent: &[u8],
    room: usize,
) -> Decision
    requires { t < shelf.g.d }
    ensures { result ≡ from_call_3 shelf.entry.image.now shelf.entry.g came t cdb.now sent.now room }
{
    check(cdb.len() == 0, 1, Seen::Dash, Answer::BadCdb)?;
    let op = command::op_of(octets::byte(cdb, 0));
    from_check_2(op, shelf, came, t, cdb, sent, room)
}

// Call 3 of a known code, checks 2 and 3. An unknown code has no length of its own.
fn from_check_2(
    op: Op,
    shelf: Frame<'_>,
    came: Came,
    t: usize,
    cdb: &[u8],
    sent: &[u8],
    room: usize,
) -> Decision
    requires { t < shelf.g.d }
    ensures { result ≡ from_check_2 op shelf.entry.image.now shelf.entry.g came t cdb.now sent.now room }
{
    let size = command::size_of(op);
    if size == 0 {
        return Err(Stop::at(2, Seen::Cdb(0), Answer::UnknownCode));
    }
    check(cdb.len() != size, 1, Seen::Dash, Answer::BadCdb)?;
    let failed = drives::is_failed(shelf, t);
    check(failed, 3, Seen::Drive(t), Answer::TargetFailed)?;
    let command = Command::decode(op, came, cdb);
    each::each(Call {
        shelf,
        target: t,
        command,
        sent,
        room,
    })
}
