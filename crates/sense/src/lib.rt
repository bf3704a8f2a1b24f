// The answers of 01, the number of each, and its sense by value.

#![tactic(auto)]

ghost use Rattle.std.specs.Prelude.{◌≡◌, ◌+◌, ◌++◌, ◌≤◌, replicate};
ghost use Rattle.octets.specs.Put.{put};
ghost use Rattle.sense.specs.Answers.{number_of};
ghost use Rattle.sense.specs.Sense.{plain_of, outer_of, no_sense, plain_sense, absent_sense, nested_sense, sense_of, outcome_of};

// 01, "Answers and the order of checks".
#[derive(Clone, Copy)]
pub enum Answer {
    // GOOD
    Good,
    // BUSY: something to retain and no empty slot
    Busy,
    // call 1: image not valid
    BadImage,
    // call 2: no such target
    NoTarget,
    // call 3: CDB empty, or a known code with another length
    BadCdb,
    // call 4: data-out bytes not the exact count
    WrongCount,
    // call 5: receive room (or C sense room) too short
    ShortRoom,
    // call 6: state to mark is not 0 or 1
    BadState,
    // 05h/20h/00h: unknown code
    UnknownCode,
    // 02h/04h/00h: target failed
    TargetFailed,
    // 05h/24h/00h: a field of the CDB; XDREAD without a match
    BadField,
    // 05h/1Ah/00h: list length
    BadListLength,
    // 05h/26h/00h: a field of the list
    BadList,
    // 05h/21h/00h: range beyond B
    BadRange,
    // nested 0Bh/08h/00h: an address not in the table
    NestedAddress,
    // nested 02h/04h/00h: the secondary or a source has failed
    NestedFailed,
    // nested 05h/21h/00h: range beyond B, on the secondary or a source
    NestedRange,
}

// 37 bytes, of which the first `len` are the sense; the others are zero. A length beside an array:
// C takes all 37, and there is no heap.
#[derive(Clone, Copy)]
pub struct Sense {
    pub bytes: [u8; 37],
    pub len: usize,
}

// What a call hands back: the answer, its sense, and the byte count of a GOOD READ or XDREAD.
#[derive(Clone, Copy)]
pub struct Outcome {
    pub answer: Answer,
    pub sense: Sense,
    pub count: usize,
}

// The bytes of a plain sense. Key, code and qualifier are three arguments, as 01 writes them:
// 05h/20h/00h.
#[tactic(auto, unfolding(octets::specs::Number::to_be))]
fn plain(key: u8, code: u8, qualifier: u8) -> [u8; 18]
    ensures { result ≡ plain_of 0x70 0 key code qualifier }
{
    [
        0x70, 0, key, 0, 0, 0, 0, 0x0A, 0, 0, 0, 0, code, qualifier, 0, 0, 0, 0,
    ]
}

// The sense that ends with an inner one, which begins at index at.
fn ending(front: [u8; 37], at: usize, inner: [u8; 18]) -> Sense
    requires { at ≤ 19 }
    ensures { result ≡ record { bytes = put front at inner; len = at + 18 } }
{
    let mut bytes = front;
    octets::put_at(&mut bytes, at, &inner);
    Sense {
        bytes,
        len: at + 18,
    }
}

// The bytes in front of a nested sense, of which 7, 8 and 9 say what is nested.
#[tactic(auto, unfolding(octets::specs::Number::to_be, crate::specs::Sense::plain_sense))]
fn outer(seven: u8, eight: u8, nine: u8) -> [u8; 37]
    ensures { result ≡ outer_of 0x70 0 seven eight nine ++ replicate 19 0 }
{
    let mut s = plain_sense(0x0B, 0x00, 0x00).bytes;
    s[7] = seven;
    s[8] = eight;
    s[9] = nine;
    s
}

// No sense.
#[tactic(auto, unfolding(crate::specs::Sense::no_sense))]
fn no_sense() -> Sense
    ensures { result ≡ no_sense }
{
    Sense {
        bytes: [0; 37],
        len: 0,
    }
}

// Plain: the target itself refuses.
#[tactic(auto, unfolding(crate::specs::Sense::plain_sense, octets::specs::Put::put, octets::specs::Number::to_be))]
fn plain_sense(key: u8, code: u8, qualifier: u8) -> Sense
    ensures { result ≡ plain_sense key code qualifier }
{
    ending([0; 37], 0, plain(key, code, qualifier))
}

// Nested: an address that is not in the table.
#[tactic(auto, unfolding(crate::specs::Sense::absent_sense, octets::specs::Put::put, octets::specs::Number::to_be))]
fn absent_sense() -> Sense
    ensures { result ≡ absent_sense }
{
    ending(outer(0x1C, 0x12, 0x00), 18, plain(0x0B, 0x08, 0x00))
}

// Nested: status 02h and the sense of the drive that refuses.
#[tactic(auto, unfolding(crate::specs::Sense::nested_sense, octets::specs::Put::put, octets::specs::Number::to_be))]
fn nested_sense(key: u8, code: u8, qualifier: u8) -> Sense
    ensures { result ≡ nested_sense key code qualifier }
{
    let mut front = outer(0x1D, 0x00, 0x12);
    front[18] = 0x02;
    ending(front, 19, plain(key, code, qualifier))
}

impl From<Answer> for Sense {
    ghost from_gives = { λ a s. s ≡ sense_of a };

    fn from(a: Answer) -> Sense {
        match a {
            Answer::UnknownCode => plain_sense(0x05, 0x20, 0x00),
            Answer::TargetFailed => plain_sense(0x02, 0x04, 0x00),
            Answer::BadField => plain_sense(0x05, 0x24, 0x00),
            Answer::BadListLength => plain_sense(0x05, 0x1A, 0x00),
            Answer::BadList => plain_sense(0x05, 0x26, 0x00),
            Answer::BadRange => plain_sense(0x05, 0x21, 0x00),
            Answer::NestedAddress => absent_sense(),
            Answer::NestedFailed => nested_sense(0x02, 0x04, 0x00),
            Answer::NestedRange => nested_sense(0x05, 0x21, 0x00),
            Answer::Good
            | Answer::Busy
            | Answer::BadImage
            | Answer::NoTarget
            | Answer::BadCdb
            | Answer::WrongCount
            | Answer::ShortRoom
            | Answer::BadState => no_sense(),
        }
    }
}

// A status as itself, call n as 256 + n.
impl From<Answer> for u32 {
    ghost from_gives = { λ a n. n ≡ number_of a };

    fn from(a: Answer) -> u32 {
        match a {
            Answer::Good => 0x00,
            Answer::Busy => 0x08,
            Answer::BadImage => 257,
            Answer::NoTarget => 258,
            Answer::BadCdb => 259,
            Answer::WrongCount => 260,
            Answer::ShortRoom => 261,
            Answer::BadState => 262,
            Answer::UnknownCode
            | Answer::TargetFailed
            | Answer::BadField
            | Answer::BadListLength
            | Answer::BadList
            | Answer::BadRange
            | Answer::NestedAddress
            | Answer::NestedFailed
            | Answer::NestedRange => 0x02,
        }
    }
}

// The sense of an answer, by name, as the law `sense_of_once` has it.
pub fn sense_of(a: Answer) -> Sense
    ensures { result ≡ sense_of a }
{
    Sense::from(a)
}

// The number of an answer, by name, as the law `number_once` has it.
pub fn number(a: Answer) -> u32
    ensures { result ≡ number_of a }
{
    u32::from(a)
}

// What a call hands back with the answer.
pub fn outcome_of(a: Answer, count: usize) -> Outcome
    ensures { result ≡ outcome_of a count }
{
    Outcome {
        answer: a,
        sense: sense_of(a),
        count,
    }
}
