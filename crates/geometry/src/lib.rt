// Where everything lies in a shelf's image: the header by value, and the places that follow from it.
//
// Only this crate knows the header's layout, the table's stride and the sizes of a slot; other
// crates ask for places.

#![tactic(auto)]

ghost use Rattle.std.specs.Prelude.{◌≡◌, ◌+◌, ◌*◌, ◌<◌, ◌≤◌, true, false, length, MatchOption};
ghost use Rattle.geometry.specs.Header.{geometry_of, ranges_ok, offsets_ok, framed_ok, end_of, entry_at, slot_at, place};
ghost use Rattle.geometry.specs.Frame.{InRange, Placed, Framed};

// A drive's address, and a block number: both are four bytes in a source entry, and neither can
// stand where the other is due.
#[derive(Clone, Copy, PartialEq, Eq)]
pub struct Address(pub usize);

#[derive(Clone, Copy, PartialEq, Eq)]
pub struct Block(pub usize);

// The header's eight fields, named after 01: D drives of B blocks of L bytes, S slots of M blocks,
// and where the drive table, the slots and the media start. `geometry_of` makes one of any 32 bytes, so
// that its places are apart is no part of the type: `Frame` has that, and `Placed` says it.
#[derive(Clone, Copy)]
pub struct Geometry {
    pub d: usize,
    pub b: usize,
    pub l: usize,
    pub s: usize,
    pub m: usize,
    pub table: usize,
    pub slots: usize,
    pub media: usize,
}

// A shelf's image with its header by value: the image is framed as the header says.
#[derive(Clone, Copy)]
pub struct Frame<'a> {
    pub image: &'a [u8],
    pub g: Geometry,
    pub ghost framed: { Framed image.now g },
}

impl Frame<'_> {
    // The image with its header, where it is as long as its header says.
    pub fn of(image: &[u8]) -> Option<Frame<'_>>
        ensures { MatchOption result (framed_ok image.now ≡ false) (λ f. (framed_ok image.now ≡ true) × (f.image ≡ image.entry) × (f.g ≡ geometry_of image.now)) }
    {
        if image.len() < 32 {
            return None;
        }
        let g = Geometry::read(image);
        if !g.ranges_ok() {
            return None;
        }
        if !g.offsets_ok() {
            return None;
        }
        if image.len() != g.end() {
            return None;
        }
        Some(Frame { image, g })
    }
}

// How many bytes of the table each drive has.
const STRIDE: usize = 4;

// How many bytes of a slot its record has; the result's bytes follow.
pub const RECORD: usize = 16;

impl Geometry {
    pub fn read(image: &[u8]) -> Geometry
        requires { 32 ≤ length image.now }
        ensures { result ≡ geometry_of image.now }
    {
        Geometry {
            d: octets::be::<4>(image, 0),
            b: octets::be::<4>(image, 4),
            l: octets::be::<4>(image, 8),
            s: octets::be::<4>(image, 12),
            m: octets::be::<4>(image, 16),
            table: octets::be::<4>(image, 20),
            slots: octets::be::<4>(image, 24),
            media: octets::be::<4>(image, 28),
        }
    }

    // The tests are joined by `&`: none needs another, and no branch has to be proved.
    fn ranges_ok(self) -> bool
        ensures { result ≡ ranges_ok self }
    {
        (2 <= self.d)
            & (self.d <= 32)
            & (1 <= self.b)
            & (self.b <= 65536)
            & (4 <= self.l)
            & (self.l <= 4096)
            & (self.l % 4 == 0)
            & (self.s <= 16)
            & (1 <= self.m)
            & (self.m <= 256)
    }

    fn offsets_ok(self) -> bool
        requires { InRange self }
        ensures { result ≡ offsets_ok self }
    {
        let front = 32 + STRIDE * self.d;
        (self.table == 32)
            & (self.slots == front)
            & (self.media == front + self.s * (RECORD + self.m * self.l))
    }

    // Where the image ends.
    pub fn end(self) -> usize
        requires { Placed self }
        ensures { result ≡ end_of self }
    {
        self.media + self.d * self.b * self.l
    }

    // Where drive i's entry of the table starts.
    pub fn entry_at(self, i: usize) -> usize
        requires { Placed self × (i < self.d) }
        ensures { (result ≡ entry_at self i) × (result + 4 ≤ self.slots) }
    {
        self.table + STRIDE * i
    }

    // Where slot i starts.
    pub fn slot_at(self, i: usize) -> usize
        requires { Placed self × (i < self.s) }
        ensures { (result ≡ slot_at self i) × (result + 16 + self.m * self.l ≤ self.media) }
    {
        self.slots + i * (RECORD + self.m * self.l)
    }

    // Where a drive's block starts; the block past its last one is the drive's end.
    pub fn place(self, drive: usize, block: Block) -> usize
        requires { Placed self × (drive < self.d) × (block.0 ≤ self.b) }
        ensures { (result ≡ place self drive block.0) × (result ≤ end_of self) }
    {
        self.media + (drive * self.b + block.0) * self.l
    }
}
