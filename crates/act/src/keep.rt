// The record of a result: it is the last store of a command that retains.
ghost use Rattle.std.specs.Prelude.{◌≡◌, ◌+◌};
ghost use Rattle.slots.specs.Slots.{used_count};
ghost use Rattle.slots.specs.Change.{entry};

use geometry::Frame;
use meaning::Span;
use slots::Slot;

// The record of a new result of the blocks of x, whose rank is one above how many are retained. `kind` is the number
// that 01 gives it, as the record has it and the definitions name it (`entry`).
pub fn entry_of(shelf: Frame<'_>, kind: usize, x: Span) -> Slot
    ensures { result ≡ entry (used_count shelf.entry.image.now shelf.entry.g + 1) kind x.drive x.block.0 x.count }
{
    Slot {
        rank: slots::used_count(shelf) + 1,
        kind,
        drive: x.drive,
        len: x.count,
        block: x.block,
        last: 0,
    }
}
