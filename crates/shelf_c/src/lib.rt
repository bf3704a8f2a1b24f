// What the recorder's C driver calls: numbers and byte slices, each slice a pointer and a length.
// include/shelf.h says what a driver writer must know.

#![tactic(auto)]

ghost use Rattle.std.specs.Prelude.{◌≡◌, ◌≤◌, ◌⊎◌, [], ◌∷◌, length};
ghost use Rattle.drives.specs.Table.{to};
ghost use Rattle.sense.specs.Answers.{number_of};
ghost use Rattle.meaning.specs.Step.{reset_answer, reset_image, mark_answer, mark_image};
ghost use Rattle.shelf_c.specs.Interface.{StepCall};
ghost use Rattle.shelf_c.specs.Blocks.{xored, xored_all};

use drives::Came;
use geometry::Address;
use sense::Answer;

// How a call came: what the driver's numbers say of it.
fn came_from(target: u32) -> Came
    ensures { result ≡ to target }
{
    Came {
        target: Address(target as usize),
    }
}

// One command. A sense room below 37 bytes is call 5 before all other checks, and moves nothing.
#[unsafe(no_mangle)]
pub extern "C" fn shelf_step(
    image: &mut [u8],
    target: u32,
    cdb: &[u8],
    sent: &[u8],
    room: &mut [u8],
    sense: &mut [u8],
    count: &mut u32,
) -> u32
    ensures { StepCall image.old (to target) cdb.now sent.now room.old sense.old count.old result image.new room.new sense.new count.new }
{
    if sense.len() < 37 {
        return sense::number(Answer::ShortRoom);
    }
    let outcome = shelf::step(image, came_from(target), cdb, sent, room);
    octets::put_at(sense, 0, &outcome.sense.bytes);
    *count = outcome.count as u32;
    sense::number(outcome.answer)
}

// Hard reset of a drive.
#[unsafe(no_mangle)]
pub extern "C" fn shelf_reset(image: &mut [u8], target: u32) -> u32
    ensures { (result ≡ number_of (reset_answer image.old (to target))) × (image.new ≡ reset_image image.old (to target)) }
{
    sense::number(shelf::reset(image, came_from(target)))
}

// Marks a drive present (0) or failed (1).
#[unsafe(no_mangle)]
pub extern "C" fn shelf_mark(image: &mut [u8], target: u32, state: u32) -> u32
    ensures { (result ≡ number_of (mark_answer image.old (to target) state)) × (image.new ≡ mark_image image.old (to target) state) }
{
    sense::number(shelf::mark(image, came_from(target), state))
}

// 02, A3: "The routine that XORs one block into another", by itself, for an interrupt handler. As many bytes as both have are
// XORed, and the rest of `into` stays.
#[unsafe(no_mangle)]
pub extern "C" fn shelf_xor(into: &mut [u8], from: &[u8])
    ensures { into.new ≡ xored into.old from.now }
{
    let n = octets::least(from.len(), into.len());
    octets::xor_into(&mut into[..n], &from[..n]);
}

// Of two blocks the shorter one first. Where they come in either order, the compiler takes each as a place of its own and not as a sum
// that it works out anew, so that `shelf_xor_four` needs no more stack than its registers.
fn shorter_first<'a>(a: &'a [u8], b: &'a [u8]) -> (&'a [u8], &'a [u8])
    ensures shorter { length result.0.now ≤ length result.1.now }
    ensures both { ((result.0.now ≡ a.now) × (result.1.now ≡ b.now)) ⊎ ((result.0.now ≡ b.now) × (result.1.now ≡ a.now)) }
{
    if a.len() < b.len() { (a, b) } else { (b, a) }
}

// Its form with four operands: as many bytes as all five have are XORed, in two passes.
#[unsafe(no_mangle)]
pub extern "C" fn shelf_xor_four(into: &mut [u8], a: &[u8], b: &[u8], c: &[u8], d: &[u8])
    ensures { into.new ≡ xored_all into.old (a.now ∷ b.now ∷ c.now ∷ d.now ∷ []) }
{
    let (short, long) = shorter_first(a, b);
    let two = octets::least(d.len(), into.len());
    let three = octets::least(c.len(), two);
    let n = octets::least(short.len(), three);
    octets::xor_four_into(&mut into[..n], &short[..n], &long[..n], &c[..n], &d[..n]);
}
