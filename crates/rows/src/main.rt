// The row program: reads a shelf's image on standard input, and prints its row sums.

#![tactic(auto)]

ghost use Rattle.std.specs.Prelude.{◌≤◌, length, OnOk};
ghost use Rattle.std.specs.Io.KnownBytes.{Appends};
ghost use Rattle.rowsum.specs.Listing.{printed_of};

use std::io;
use std::io::{Read, Write};

// Fills the room from its front until it is full or the input ends, and answers how many bytes it has. A read that fails counts as the
// end of the input. A loop, as std's `read_exact` does not say how far it came, and `read_to_end` asks for a heap.
fn fill<R: Read>(from: &mut R, room: &mut [u8]) -> usize
    ensures { result ≤ length room.new }
{
    let mut done = 0;
    while done < room.len() {
        match from.read(&mut room[done..]) {
            Ok(0) | Err(_) => return done,
            Ok(n) => done += n,
        }
    }
    done
}

// Prints what `rowsum` makes of the input. Memory is fixed: the room is as long as the longest text (the law
// `printed_whole`).
fn print<W: Write>(to: &mut W, input: &[u8]) -> io::Result<()>
    ensures { OnOk result (Appends (W.contents to.old) (W.contents to.new) (printed_of input.now)) }
{
    let mut out = [0u8; 133988];
    let n = rowsum::printed(input, &mut out);
    to.write_all(&out[..n])
}

// One byte more is read than an image may have, so that a longer input is seen. Where the text cannot be written, what was printed tells.
fn main(rt: HostRuntime) {
    let mut input = [0u8; 49153];
    let n = fill(&mut rt.stdin(), &mut input);
    let _ = print(&mut rt.stdout(), &input[..n]);
}
