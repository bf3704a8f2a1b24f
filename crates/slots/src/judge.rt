// Are the slots right?
ghost use Rattle.std.specs.Prelude.{◌≡◌, ◌<◌, ◌≤◌, length};
ghost use Rattle.folds.specs.Every.{every};
ghost use Rattle.rules.specs.Must.{tests_of};
ghost use Rattle.slots.specs.Record.{zero_slot};
ghost use Rattle.slots.specs.RecordLaws.{Small};
ghost use Rattle.slots.specs.Slots.{empty_musts, used_musts, slot_ok, used_count, rank_in, slots_ok};

use crate::Slot;
use geometry::{Frame, Geometry};

fn empty_ok(r: Slot) -> bool
    ensures { result ≡ every (tests_of (empty_musts zero_slot r)) }
{
    (r.rank == 0) & (r.drive == 0) & (r.len == 0) & (r.block.0 == 0) & (r.last == 0)
}

fn used_ok(g: Geometry, k: usize, new: bool, r: Slot) -> bool
    requires { Small r }
    ensures { result ≡ every (tests_of (used_musts g k new zero_slot r)) }
{
    (1 <= r.rank)
        & (r.rank <= k)
        & new
        & (1 <= r.kind)
        & (r.kind <= 2)
        & (r.drive < g.d)
        & (1 <= r.len)
        & (r.len <= g.m)
        & (r.block.0 + r.len <= g.b)
        & (r.last == 0)
}

// Is the slot right, where k are used and no earlier one has its rank, if new says so?
fn slot_ok(g: Geometry, k: usize, new: bool, r: Slot) -> bool
    requires { Small r }
    ensures { result ≡ slot_ok g k new r }
{
    if r.kind == 0 {
        empty_ok(r)
    } else {
        used_ok(g, k, new, r)
    }
}

// How many slots are used.
pub fn used_count(shelf: Frame<'_>) -> usize
    ensures { (result ≡ used_count shelf.entry.image.now shelf.entry.g) × (result ≤ 16) }
{
    (0..shelf.g.s)
        .filter(|i| crate::read_slot(shelf, *i).kind != 0)
        .count()
}

// Its rank, and 0 where it is empty. A number: `rank_in` reads any record, and 0 is no used slot's rank.
fn rank_in(r: Slot) -> usize
    requires { Small r }
    ensures { (result ≡ rank_in r) × (result < 4294967296) }
{
    if r.kind == 0 { 0 } else { r.rank }
}

// Each record is read once: the ranks of the slots passed are kept.
pub fn slots_ok(shelf: Frame<'_>) -> bool
    ensures { result ≡ slots_ok shelf.entry.image.now shelf.entry.g }
{
    let k = used_count(shelf);
    let mut kept = [0u32; 16];
    let mut ok = true;
    for i in 0..shelf.g.s {
        let r = crate::read_slot(shelf, i);
        let new = octets::keep_new(&mut kept, i, rank_in(r));
        ok &= slot_ok(shelf.g, k, new, r);
    }
    ok
}
