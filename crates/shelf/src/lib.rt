// The step, the reset and the marking of a drive. Every image, command and data gets an answer; the
// caller has checked nothing.

#![tactic(auto)]

ghost use Rattle.std.specs.Prelude.{◌≡◌};
ghost use Rattle.meaning.specs.Stepped.{Stepped, Reset, Marked};

use drives::Came;
use geometry::Geometry;
use meaning::{Go, Stop};
use sense::{Answer, Outcome};

// Carries out one command: it is decided on a shared image, and only a decision to go reaches the
// code that changes one.
pub fn step(image: &mut [u8], came: Came, cdb: &[u8], sent: &[u8], room: &mut [u8]) -> Outcome
    ensures { Stepped image.old came cdb.now sent.now room.old result image.new room.new }
{
    match decide::decide(image, came, cdb, sent, room.len()) {
        Err(Stop { answer, .. }) => sense::outcome_of(answer, 0),
        Ok(Go { act, answer }) => {
            let g = Geometry::read(image);
            let count = act::carry_out(image, g, act, sent, room);
            sense::outcome_of(answer, count)
        }
    }
}

// Hard reset of a drive: all its results go.
pub fn reset(image: &mut [u8], came: Came) -> Answer
    ensures { Reset image.old came result image.new }
{
    match decide::called(image, came) {
        Err(answer) => answer,
        Ok((g, i)) => {
            slots::drop_drive(image, g, i);
            Answer::Good
        }
    }
}

// Marks a drive present (0) or failed (1): `state` as the C interface passes it, and any number gets an answer.
pub fn mark(image: &mut [u8], came: Came, state: u32) -> Answer
    ensures { Marked image.old came state result image.new }
{
    match decide::called(image, came) {
        Err(answer) => answer,
        Ok((g, i)) => {
            if 1 < state {
                return Answer::BadState;
            }
            drives::mark(image, g, i, state as usize);
            Answer::Good
        }
    }
}
