// 01's checks 4 to 11 of READ, WRITE, XPWRITE, XDREAD, XDWRITE(10) and XDWRITEREAD(10), but for the bits
// of byte 1 that must be zero, in 01's order.

#![tactic(auto)]

mod newest;
mod plain;
mod xdwrite;

ghost use Rattle.std.specs.Prelude.{◌≡◌, ◌*◌};
ghost use Rattle.command.specs.Command.{Fits};
ghost use Rattle.meaning.specs.Checks.{span_of};
ghost use Rattle.decide_one.specs.Stages.{roomy_verdict};

use command::Command;
use geometry::Frame;
use meaning::{Seen, Span, Stop};
pub use newest::xdread;
pub use plain::{read, write, xpwrite};
use sense::Answer;
pub use xdwrite::{retained, xdwrite_ten, xdwriteread};

// A command on its way through the checks: the shelf, the target's index in the table, the command, the
// bytes sent with it, and how long the receive room is.
#[derive(Clone, Copy)]
pub struct Call<'a> {
    pub shelf: Frame<'a>,
    pub target: usize,
    pub command: Command,
    pub sent: &'a [u8],
    pub room: usize,
    ghost fits: { Fits command },
}

impl<'a> Call<'a> {
    // The target's blocks that the command names.
    pub fn span(self) -> Span
        ensures { let c = self.entry in result ≡ span_of c.target c.command }
    {
        Span {
            drive: self.target,
            block: self.command.block,
            count: self.command.count,
        }
    }

    // How many bytes these have.
    pub fn bytes(self) -> usize
        ensures { let c = self.entry in result ≡ c.command.count * c.shelf.g.l }
    {
        self.command.count * self.shelf.g.l
    }

    // Check 11.
    fn roomy(self) -> Result<(), Stop>
        ensures { let c = self.entry in result ≡ roomy_verdict (Ok tt) c.shelf.g c.command c.room }
    {
        meaning::check(self.room < self.bytes(), 11, Seen::Dash, Answer::ShortRoom)
    }
}
