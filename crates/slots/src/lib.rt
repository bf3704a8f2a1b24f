// A shelf's slots: the results that its drives retain, read, judged, searched and changed.

#![tactic(auto)]

mod change;
mod find;
mod judge;

ghost use Rattle.std.specs.Prelude.{◌≡◌, ◌<◌};
ghost use Rattle.slots.specs.Record.{slot_of};
ghost use Rattle.slots.specs.RecordLaws.{Small};

pub use change::{drop_drive, release, write_record};
pub use find::{empty_slot, newest};
use geometry::{Block, Frame};
pub use judge::{slots_ok, used_count};

// A slot's record. `last` is its last four bytes, which are zero. An image may hold any kind, so `kind` is
// a number: `slot_of` reads each, and `slots_ok` refuses those above 2. For the same reason `Small`, how
// large the fields are, is no part of the type: `slot_of` is defined of any list.
#[derive(Clone, Copy)]
pub struct Slot {
    pub rank: usize,
    pub kind: usize,
    pub drive: usize,
    pub len: usize,
    pub block: Block,
    pub last: usize,
}

// The best slot so far of a search, and its rank.
#[derive(Clone, Copy)]
pub struct Best {
    pub slot: usize,
    pub rank: usize,
}

// Slot i's record.
pub fn read_slot(shelf: Frame<'_>, i: usize) -> Slot
    requires { i < shelf.g.s }
    ensures { (result ≡ slot_of shelf.entry.image.now shelf.entry.g i) × Small result }
{
    let at = shelf.g.slot_at(i);
    Slot {
        rank: octets::be::<4>(shelf.image, at),
        kind: octets::byte(shelf.image, at + 4),
        drive: octets::byte(shelf.image, at + 5),
        len: octets::be::<2>(shelf.image, at + 6),
        block: Block(octets::be::<4>(shelf.image, at + 8)),
        last: octets::be::<4>(shelf.image, at + 12),
    }
}
