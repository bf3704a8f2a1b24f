// The C interface as a static library: the functions of `shelf_c`, each under its own name and with its own contract.
// include/shelf.h says what a driver writer must know. What is exported to C stands here a second time, since a crate is
// a library or a static library.

#![tactic(auto)]

ghost use Rattle.std.specs.Prelude.{◌≡◌, [], ◌∷◌};
ghost use Rattle.drives.specs.Table.{to};
ghost use Rattle.sense.specs.Answers.{number_of};
ghost use Rattle.meaning.specs.Step.{reset_answer, reset_image, mark_answer, mark_image};
ghost use Rattle.shelf_c.specs.Interface.{StepCall};
ghost use Rattle.shelf_c.specs.Blocks.{xored, xored_all};

// One command. A sense room below 37 bytes is call 5 before all other checks, and moves nothing.
#[unsafe(no_mangle)]
pub extern "C" fn shelf_step(
    image: &mut [u8],
    target: u32,
    cdb: &[u8],
    sent: &[u8],
    room: &mut [u8],
    sense: &mut [u8],
    count: &mut u32,
) -> u32
    ensures { StepCall image.old (to target) cdb.now sent.now room.old sense.old count.old result image.new room.new sense.new count.new }
{
    shelf_c::shelf_step(image, target, cdb, sent, room, sense, count)
}

// Hard reset of a drive.
#[unsafe(no_mangle)]
pub extern "C" fn shelf_reset(image: &mut [u8], target: u32) -> u32
    ensures { (result ≡ number_of (reset_answer image.old (to target))) × (image.new ≡ reset_image image.old (to target)) }
{
    shelf_c::shelf_reset(image, target)
}

// Marks a drive present (0) or failed (1).
#[unsafe(no_mangle)]
pub extern "C" fn shelf_mark(image: &mut [u8], target: u32, state: u32) -> u32
    ensures { (result ≡ number_of (mark_answer image.old (to target) state)) × (image.new ≡ mark_image image.old (to target) state) }
{
    shelf_c::shelf_mark(image, target, state)
}

// The routine that XORs one block into another, by itself, for an interrupt handler. As many bytes as both have are XORed, and the
// rest of `into` stays.
#[unsafe(no_mangle)]
pub extern "C" fn shelf_xor(into: &mut [u8], from: &[u8])
    ensures { into.new ≡ xored into.old from.now }
{
    shelf_c::shelf_xor(into, from);
}

// Its form with four operands: as many bytes as all five have are XORed, in two passes.
#[unsafe(no_mangle)]
pub extern "C" fn shelf_xor_four(into: &mut [u8], a: &[u8], b: &[u8], c: &[u8], d: &[u8])
    ensures { into.new ≡ xored_all into.old (a.now ∷ b.now ∷ c.now ∷ d.now ∷ []) }
{
    shelf_c::shelf_xor_four(into, a, b, c, d);
}
