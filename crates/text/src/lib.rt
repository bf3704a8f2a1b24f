// Text: words and numbers, written into a room that the caller lends.
//
// A `Page` is the room with the index to write at. What a writer leaves of it is one record, `Writes`; two writers one after the other are
// the law `writes_then`.

#![tactic(auto)]

ghost use Rattle.std.specs.Prelude.{◌≡◌, ◌∷◌, [], ◌++◌, ◌+◌, ◌*◌, ◌<◌, ◌≤◌, length};
ghost use Rattle.text.specs.Decimal.{decimal};
ghost use Rattle.text.specs.Hexadecimal.{hex_digit, hexadecimal};
ghost use Rattle.text.specs.Page.{Writes};
ghost use Rattle.text.specs.Room.{fitted, fitted_count};

// A room that the caller lends, and the index to write at.
#[derive(Drop)]
pub struct Page<'a> {
    pub out: &'a mut [u8],
    pub at: usize,
}

impl Page<'_> {
    #[tactic(auto, using(crate::specs::Page::writes_byte))]
    fn put_byte(&mut self, b: u8)
        requires { self.old.at < length self.old.out.now }
        ensures { Writes (b ∷ []) self.old self.new }
    {
        self.out[self.at] = b;
        self.at += 1;
    }

    // Writes a word as it is.
    pub fn put_word(&mut self, word: &[u8])
        requires { self.old.at + length word.now ≤ length self.old.out.now }
        ensures { Writes word.now self.old self.new }
    {
        octets::put_at(self.out, self.at, word);
        self.at += word.len();
    }

    // Writes n in decimal. By hand, as std's contracts of `write!` say what stands there where it answers `Ok`, and not that it does where
    // there is room.
    pub fn put_decimal(&mut self, n: usize)
        requires { self.old.at + length (decimal n) ≤ length self.old.out.now }
        ensures { Writes (decimal n) self.old self.new }
    {
        if n >= 10 {
            self.put_decimal(n / 10);
        }
        self.put_byte(b'0' + (n % 10) as u8);
    }

    // Writes a name and a number.
    pub fn put_field(&mut self, name: &[u8], n: usize)
        requires { self.old.at + length name.now + length (decimal n) ≤ length self.old.out.now }
        ensures { Writes (name.now ++ decimal n) self.old self.new }
    {
        self.put_word(name);
        self.put_decimal(n);
    }

    // Writes bytes in hexadecimal, by hand as `put_decimal`.
    pub fn put_hexadecimal(&mut self, bytes: &[u8])
        requires { self.old.at + 2 * length bytes.now ≤ length self.old.out.now }
        ensures { Writes (hexadecimal bytes.now) self.old self.new }
    {
        for b in bytes {
            self.put_byte(hex_digit(*b / 16));
            self.put_byte(hex_digit(*b % 16));
        }
    }
}

// How many digits n has in decimal.
pub fn decimal_len(n: usize) -> usize
    ensures { (result ≡ length (decimal n)) × (result ≤ n + 1) }
{
    n.max(1).ilog10() as usize + 1
}

#[tactic(auto, unfolding(crate::specs::Hexadecimal::hex_digit))]
fn hex_digit(d: u8) -> u8
    requires { d < 16 }
    ensures { result ≡ hex_digit d }
{
    if d < 10 { b'0' + d } else { b'a' - 10 + d }
}

// Writes a word at the room's front, or nothing where the room is too short, and answers how many
// bytes it wrote: 0 for nothing, as `rowsum::listing` promises it.
pub fn put_fitted(out: &mut [u8], word: &[u8]) -> usize
    ensures value { result ≡ fitted_count word.now out.old }
    ensures out_after { out.new ≡ fitted word.now out.old }
{
    if out.len() < word.len() {
        return 0;
    }
    let mut page = Page { out, at: 0 };
    page.put_word(word);
    page.at
}
