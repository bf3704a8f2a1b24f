// A command by value: what the bytes of its CDB and of its parameter list say. Nothing is refused
// here, and nothing is lost: the CDB can be written back from the command.

#![tactic(auto)]

ghost use Rattle.std.specs.Prelude.{◌≡◌, ◌+◌, ◌*◌, ◌<◌, ◌≤◌, length};
ghost use Rattle.geometry.specs.Frame.{InRange};
ghost use Rattle.command.specs.Headed.{headed_of};
ghost use Rattle.command.specs.Command.{op_of, has, size_of, zero_bits, command_of, mirror_of, ndisc_of, sec_of, int_of, list_sec_of, disable_of, Fits, own_of, source_of, resolved_of, list_bytes};

use drives::Came;
use geometry::{Address, Block, Geometry};

// What a code asks for. A code that 01 does not know is an operation too, and not none: `has` and the laws over all
// operations name it.
#[derive(Clone, Copy)]
pub enum Op {
    XdWrite,
    XpWrite,
    XdRead,
    Rebuild,
    Regenerate,
    Read,
    Write,
    // XDWRITE(10) and XDWRITEREAD(10)
    XdWriteTen,
    XdWriteRead,
    Unknown,
}

// How a CDB is laid out: 16 bytes, 10 bytes, 10 bytes for a list.
#[derive(Clone, Copy)]
pub enum Layout {
    Sixteen,
    Ten,
    ByList,
}

// What a CDB says. A field that the command lacks is 0. `Fits` stays a clause of the methods here: `command_of`
// makes a command of any list, so no ghost field can hold it, and two functions of `decide_one` read a field
// and pass the whole, which gets no proof behind a model. A command that is checked has it in `decide_one::Call`.
#[derive(Clone, Copy)]
pub struct Command {
    // byte 0 as it was sent: two codes say XPWRITE, two say XDREAD
    pub code: usize,
    pub op: Op,
    // how it came
    pub came: Came,
    // byte 1, byte 6 of a 10-byte command, and the last byte, each whole
    pub flags: usize,
    pub six: usize,
    pub control: usize,
    // the blocks that the command works on; REBUILD and REGENERATE name the first in their list
    pub block: Block,
    pub count: usize,
    // how many bytes the parameter list has
    pub list: usize,
    // the secondary, and the block there
    pub second: Address,
    pub spot: Block,
}

// A source entry of a parameter list.
#[derive(Clone, Copy)]
pub struct Source {
    pub address: Address,
    pub block: Block,
}

// The published codes, and those of 1994.
impl From<usize> for Op {
    ghost from_gives = { λ code op. op ≡ op_of code };

    #[tactic(auto, unfolding(crate::specs::Command::op_of))]
    fn from(code: usize) -> Op {
        match code {
            0x28 => Op::Read,
            0x2A => Op::Write,
            0x50 => Op::XdWriteTen,
            0x51 | 0xC1 => Op::XpWrite,
            0x52 | 0xC2 => Op::XdRead,
            0x53 => Op::XdWriteRead,
            0xC0 => Op::XdWrite,
            0xC3 => Op::Rebuild,
            0xC4 => Op::Regenerate,
            _ => Op::Unknown,
        }
    }
}

// The operation of a code, by name, as the law `op_of_once` has it.
pub fn op_of(code: usize) -> Op
    ensures { result ≡ op_of code }
{
    Op::from(code)
}

// The layout of an operation's CDB; an unknown code has none.
fn layout_of(op: Op) -> Option<Layout>
    ensures { result ≡ (has op).layout }
{
    match op {
        Op::XdWrite => Some(Layout::Sixteen),
        Op::Rebuild | Op::Regenerate => Some(Layout::ByList),
        Op::XpWrite | Op::XdRead | Op::Read | Op::Write | Op::XdWriteTen | Op::XdWriteRead => Some(
            Layout::Ten,
        ),
        Op::Unknown => None,
    }
}

// How many bytes a CDB has; 0 for an unknown code, which is how 01's checks know one (`is_unknown`).
pub fn size_of(op: Op) -> usize
    ensures { result ≡ size_of op }
{
    match layout_of(op) {
        Some(Layout::Sixteen) => 16,
        Some(Layout::Ten | Layout::ByList) => 10,
        None => 0,
    }
}

// The bits of byte 1 that must be zero.
pub fn zero_bits(op: Op) -> usize
    ensures { result ≡ zero_bits op }
{
    match op {
        Op::XdWrite => 0x81,
        Op::XpWrite | Op::Read | Op::Write => 0xE7,
        Op::XdRead => 0xFF,
        Op::Rebuild | Op::Regenerate => 0xF8,
        Op::XdWriteTen | Op::XdWriteRead => 0xE3,
        Op::Unknown => 0,
    }
}

impl Command {
    // The command in a CDB of its length; no CDB has that of an unknown code.
    #[tactic(auto, unfolding(crate::specs::Command::sixteen_of, crate::specs::Command::ten_of, crate::specs::Command::listed_of))]
    pub fn decode(op: Op, came: Came, cdb: &[u8]) -> Command
        requires { (length cdb.now ≡ size_of op) × (size_of op ≡ 0 → ⊥) }
        ensures { (result ≡ command_of op came cdb.now) × Fits result }
    {
        let head = Command::headed(op, came, cdb);
        match layout_of(op) {
            // block 2-5, length 6-7, secondary address 8-10, secondary block 11-14
            Some(Layout::Sixteen) => Command {
                block: Block(octets::be::<4>(cdb, 2)),
                count: octets::be::<2>(cdb, 6),
                second: Address(octets::be::<3>(cdb, 8)),
                spot: Block(octets::be::<4>(cdb, 11)),
                ..head
            },
            // block 2-5, length 7-8
            Some(Layout::Ten) => Command {
                six: octets::byte(cdb, 6),
                block: Block(octets::be::<4>(cdb, 2)),
                count: octets::be::<2>(cdb, 7),
                ..head
            },
            // length 2-5, list length 7-8
            Some(Layout::ByList) => Command {
                six: octets::byte(cdb, 6),
                count: octets::be::<4>(cdb, 2),
                list: octets::be::<2>(cdb, 7),
                ..head
            },
            None => unreachable!(),
        }
    }

    // What every CDB has: its code, byte 1, and the last byte.
    fn headed(op: Op, came: Came, cdb: &[u8]) -> Command
        requires { 2 ≤ length cdb.now }
        ensures { (result ≡ headed_of op came cdb.now) × Fits result }
    {
        Command {
            code: octets::byte(cdb, 0),
            op,
            came,
            flags: octets::byte(cdb, 1),
            six: 0,
            control: octets::byte(cdb, cdb.len() - 1),
            block: Block(0),
            count: 0,
            list: 0,
            second: Address(0),
            spot: Block(0),
        }
    }

    // XDWRITE's bits
    pub fn mirror(self) -> bool
        ensures { result ≡ mirror_of self }
    {
        self.flags / 64 % 2 == 1
    }

    pub fn ndisc(self) -> bool
        ensures { result ≡ ndisc_of self }
    {
        self.flags / 32 % 2 == 1
    }

    // Two bits, which 01 writes as a number, 00 to 11; the definitions compare it with these.
    pub fn sec(self) -> usize
        ensures { (result ≡ sec_of self) × (result < 4) }
    {
        self.flags / 2 % 4
    }

    // REBUILD's and REGENERATE's
    pub fn int(self) -> bool
        ensures { result ≡ int_of self }
    {
        self.flags / 4 % 2 == 1
    }

    // as `sec`
    pub fn list_sec(self) -> usize
        ensures { (result ≡ list_sec_of self) × (result < 4) }
    {
        self.flags % 4
    }

    // DISABLE WRITE of 50h and 53h: the same bit under A1's name, which `disable_of` has
    pub fn disable(self) -> bool
        ensures { result ≡ disable_of self }
    {
        self.flags / 4 % 2 == 1
    }

    // The command at the block that its list names.
    #[tactic(auto, unfolding(crate::specs::Command::own_of))]
    pub fn own(self, sent: &[u8]) -> Self
        requires { (8 ≤ length sent.now) × Fits self }
        ensures { (result ≡ own_of self sent.now) × Fits result }
    {
        Command {
            block: Block(octets::be::<4>(sent, 4)),
            ..self
        }
    }

    // The length FFFFFFFFh means to the last block. Where no block is left it stays, and is then
    // beyond the last one.
    #[tactic(auto, unfolding(crate::specs::Command::resolved_of))]
    pub fn resolve(self, g: Geometry) -> Self
        requires { InRange g × Fits self }
        ensures { (result ≡ resolved_of self g.b) × Fits result }
    {
        if (self.count != 0xFFFFFFFF) | (self.block.0 >= g.b) {
            return self;
        }
        Command {
            count: g.b - self.block.0,
            ..self
        }
    }

    // How many bytes a command with a parameter list sends.
    #[tactic(auto, unfolding(crate::specs::Command::list_bytes))]
    pub fn list_bytes(self, g: Geometry) -> usize
        requires { InRange g × Fits self }
        ensures { result ≡ list_bytes self g.l }
    {
        if self.list == 0 {
            return 0;
        }
        if self.int() {
            return self.list + self.count * g.l;
        }
        self.list
    }
}

impl Source {
    // Entry i of the list.
    #[tactic(auto, unfolding(crate::specs::Command::source_of))]
    pub fn read(sent: &[u8], i: usize) -> Source
        requires { 16 + 8 * i ≤ length sent.now }
        ensures { (result ≡ source_of sent.now i) × (result.address.0 < 4294967296) × (result.block.0 < 4294967296) }
    {
        Source {
            address: Address(octets::be::<4>(sent, 8 + 8 * i)),
            block: Block(octets::be::<4>(sent, 8 + 8 * i + 4)),
        }
    }
}
