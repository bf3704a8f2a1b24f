// Searches among the source entries of a parameter list: 01's checks 7 and 10.

#![tactic(auto)]

ghost use Rattle.std.specs.Prelude.{◌≡◌, ◌+◌, ◌*◌, ◌<◌, ◌≤◌, length};
ghost use Rattle.meaning.specs.Sources.{is_at, own_entry, first_bad};

use command::Source;
use drives::Came;
use geometry::Frame;
use meaning::Fault;

// Is it drive t that the lookup gave?
pub fn is_at(found: Option<usize>, t: usize) -> bool
    ensures { result ≡ is_at t found }
{
    found == Some(t)
}

// The first of n entries that is the target, drive t.
pub fn own_entry(shelf: Frame<'_>, came: Came, sent: &[u8], n: usize, t: usize) -> Option<usize>
    requires { 8 + 8 * n ≤ length sent.now }
    ensures { result ≡ own_entry shelf.entry.image.now shelf.entry.g came sent.now n t }
{
    (0..n).find(|i| {
        let source = Source::read(sent, *i);
        is_at(drives::find_source(shelf, came, source.address), t)
    })
}

// What is wrong with the first of n entries that fails: its address is in no entry of the table, or
// the drive has failed, or its `count` blocks pass the drive's end. 01 names the form: a loop that yields the
// failing entry by break, with a labelled exit from the inner search of the table (that of `find_source`).
pub fn first_bad(
    shelf: Frame<'_>,
    came: Came,
    sent: &[u8],
    n: usize,
    count: usize,
) -> Result<(), Fault>
    requires { (8 + 8 * n ≤ length sent.now) × (count < 4294967296) }
    ensures { result ≡ first_bad shelf.entry.image.now shelf.entry.g came sent.now count 0 n }
{
    let table = shelf.g.d;
    let blocks = shelf.g.b;
    let mut i = 0;
    let fault = 'entries: loop {
        if i >= n {
            break Ok(());
        }
        let source = Source::read(sent, i);
        let mut k = 0;
        loop {
            if k >= table {
                break 'entries Err(Fault::Absent(i));
            }
            if drives::address(shelf, k) == source.address {
                break;
            }
            k += 1;
        }
        if drives::is_failed(shelf, k) {
            break Err(Fault::Failed(i, k));
        }
        if blocks < source.block.0 + count {
            break Err(Fault::Beyond(i));
        }
        i += 1;
    };
    fault
}
