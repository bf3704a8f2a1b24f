// The slot that takes a result, and the slot that answers.
ghost use Rattle.std.specs.Prelude.{◌≡◌};
ghost use Rattle.slots.specs.Find.{empty_slot, better, newest_of};

use crate::{Best, Slot};
use geometry::{Block, Frame};

// The lowest-numbered empty slot.
pub fn empty_slot(shelf: Frame<'_>) -> Option<usize>
    ensures { result ≡ empty_slot shelf.entry.image.now shelf.entry.g }
{
    (0..shelf.g.s).find(|i| crate::read_slot(shelf, *i).kind == 0)
}

// The best so far, or slot i where it is the drive's result at the block, and newer; rank 0 is never
// newer.
fn pick(best: Option<Best>, drive: usize, block: Block, i: usize, r: Slot) -> Option<Best>
    ensures { result ≡ better drive block.0 best i r }
{
    let top = best.map_or(0, |b| b.rank);
    if (r.kind != 0) & (r.drive == drive) & (r.block == block) & (top < r.rank) {
        Some(Best {
            slot: i,
            rank: r.rank,
        })
    } else {
        best
    }
}

// The slot of the newest result of the drive at the block.
pub fn newest(shelf: Frame<'_>, drive: usize, block: Block) -> Option<usize>
    ensures { result ≡ newest_of shelf.entry.image.now shelf.entry.g drive block.0 }
{
    let mut best = None;
    for i in 0..shelf.g.s {
        best = pick(best, drive, block, i, crate::read_slot(shelf, i));
    }
    best.map(|b| b.slot)
}
