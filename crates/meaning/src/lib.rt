// What a step means: the types of a decision, and in `specs/` the definitions that every contract of the
// step cites. Of code there is only what makes a decision, so that theorems over the definitions wait for these few
// lines alone.
//
// The letters of the definitions, here and in the crates below, have one meaning each:
//
//     m  the image               g  its geometry, whose fields have 01's letters
//     a  how a command came      t  the target's index in the table    d  another drive's
//     c  the CDB                 o  its operation                      k  the command
//     s  the data-out bytes      r  the receive room                   i  a slot's or a source entry's number
//     b  a block number          n  how many                           x, y  blocks of a drive
//     z  an answer               w  where a check saw it               e  a slot's record, or a source
//     j  what is summed          (in `drives`, below it, `a` is an address)

#![tactic(auto)]

ghost use Rattle.std.specs.Prelude.{◌≡◌};
ghost use Rattle.sense.specs.declared.Answer.TheVariants.{Good};
ghost use Rattle.meaning.specs.Decision.{checked, go};
ghost use Rattle.meaning.specs.Checks.{stop_of};

use drives::Came;
use geometry::Block;
use sense::Answer;

// Blocks of a drive.
#[derive(Clone, Copy)]
pub struct Span {
    pub drive: usize,
    pub block: Block,
    pub count: usize,
}

// What is summed besides the list: Int Data, and how the command came, by which sources are looked up.
#[derive(Clone, Copy)]
pub struct Summing {
    pub int: bool,
    pub came: Came,
}

// What a command that passed every check does.
#[derive(Clone, Copy)]
pub enum Act {
    Read(Span),
    Write(Span),
    XpWrite(Span),
    // the blocks, and the slot that answers
    XdRead(Span, usize),
    // the data's blocks, the secondary's, Mirror
    Couple(Span, Span, bool),
    // the data's blocks, the slot that takes the result, Mirror, NDisc or DISABLE WRITE
    Retain(Span, usize, bool, bool),
    // the target's blocks, what is summed
    Rebuild(Span, Summing),
    // the same, and the slot that takes the result
    Regenerate(Span, Summing, usize),
    // the data's blocks, DISABLE WRITE
    XdWriteRead(Span, bool),
}

// Where the check that decided saw it: nowhere, a byte of the CDB or of the parameter list, the state
// of a drive, a byte of a source entry, or the state of the drive that a source entry names. `Dash` and no Option: each
// rule of the definitions says where it is seen, and theorems name it.
#[derive(Clone, Copy)]
pub enum Seen {
    Dash,
    Cdb(usize),
    List(usize),
    Drive(usize),
    Entry(usize, usize),
    EntryDrive(usize, usize),
}

// What is wrong with the first source entry that fails: the entry, and of a failed drive its index.
#[derive(Clone, Copy)]
pub enum Fault {
    Absent(usize),
    Failed(usize, usize),
    Beyond(usize),
}

// A check decided: its number in 01's list, where it was seen, and the answer. A number and no enum: 01 numbers its
// checks, and `rule` takes the number.
#[derive(Clone, Copy)]
pub struct Stop {
    pub number: usize,
    pub seen: Seen,
    pub answer: Answer,
}

// No check decided: what is done, and the answer to it.
#[derive(Clone, Copy)]
pub struct Go {
    pub act: Act,
    pub answer: Answer,
}

// What becomes of a command.
pub type Decision = Result<Go, Stop>;

impl Stop {
    pub fn at(number: usize, seen: Seen, answer: Answer) -> Stop
        ensures { result ≡ record { number = number; seen = seen; answer = answer } }
    {
        Stop {
            number,
            seen,
            answer,
        }
    }
}

// A check of 01: where it applies it decides.
pub fn check(applies: bool, number: usize, seen: Seen, answer: Answer) -> Result<(), Stop>
    ensures { result ≡ checked number seen applies answer }
{
    if applies {
        return Err(Stop::at(number, seen, answer));
    }
    Ok(())
}

// Every check is passed: the act is done, and GOOD answered.
pub fn accept(act: Act) -> Decision
    ensures { result ≡ go act Good }
{
    Ok(Go {
        act,
        answer: Answer::Good,
    })
}

// 01's check 10 of a source entry.
impl From<Fault> for Stop {
    ghost from_gives = { λ f s. s ≡ stop_of f };

    fn from(fault: Fault) -> Stop {
        match fault {
            Fault::Absent(i) => Stop::at(10, Seen::Entry(i, 0), Answer::NestedAddress),
            Fault::Failed(i, k) => Stop::at(10, Seen::EntryDrive(i, k), Answer::NestedFailed),
            Fault::Beyond(i) => Stop::at(10, Seen::Entry(i, 4), Answer::NestedRange),
        }
    }
}
