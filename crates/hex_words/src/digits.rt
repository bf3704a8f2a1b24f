// Bytes and numbers in hexadecimal digits: which words are some, and what they say.
ghost use Rattle.std.specs.Prelude.{◌≡◌, true, ◌+◌, ◌*◌, ◌<◌, ◌≤◌, length};
ghost use Rattle.hex_words.specs.Digits.{is_hex, digit_in, all_hex, Hex, is_bytes, is_number, number_in};
ghost use Rattle.hex_words.specs.Unhex.{Read};

use crate::split;

#[tactic(auto, unfolding(crate::specs::Digits::is_hex))]
fn is_hex(b: u8) -> bool
    ensures { result ≡ is_hex b }
{
    matches!(b, b'0'..=b'9' | b'a'..=b'f')
}

fn all_hex(w: &[u8]) -> bool
    ensures { result ≡ all_hex w.now }
{
    w.iter().all(|b| is_hex(*b))
}

// Is the word `-`, or two digits for each of some bytes?
#[tactic(auto, unfolding(crate::specs::Digits::is_bytes))]
pub fn is_bytes(w: &[u8]) -> bool
    ensures { result ≡ is_bytes w.now }
{
    split::same(w, b"-") | ((!w.is_empty() & (w.len() % 2 == 0)) && all_hex(w))
}

// Is the word eight digits?
#[tactic(auto, unfolding(crate::specs::Digits::is_number))]
pub fn is_number(w: &[u8]) -> bool
    ensures { result ≡ is_number w.now }
{
    w.len() == 8 && all_hex(w)
}

#[tactic(auto, using(crate::specs::Unhex::letter, crate::specs::Unhex::figure), unfolding(crate::specs::Digits::digit_in))]
fn digit(b: u8) -> u8
    requires { is_hex b ≡ true }
    ensures { (result ≡ digit_in b) × (result < 16) }
{
    if b < b'a' { b - b'0' } else { b - b'a' + 10 }
}

// Reads the word's bytes into the room's front, and answers how many there are.
pub fn unhex(w: &[u8], room: &mut [u8]) -> usize
    requires { Hex w.now × (length w.now ≤ 2 * length room.old + 1) }
    ensures { Read w.now result room.old room.new }
{
    let (pairs, _) = w.as_chunks::<2>();
    for (i, pair) in pairs.iter().enumerate() {
        let high = digit(pair[0]);
        let low = digit(pair[1]);
        room[i] = 16 * high + low;
    }
    pairs.len()
}

// The number that eight digits say. No Option, nor has `unhex` one: a word is tested first (`is_number`), and a public function that could
// not fail still cannot.
pub fn number(w: &[u8]) -> u32
    requires { is_number w.now ≡ true }
    ensures { result ≡ number_in w.now }
{
    let mut bytes = [0u8; 4];
    unhex(w, &mut bytes);
    u32::from_be_bytes(bytes)
}
