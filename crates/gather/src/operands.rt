// The operands of a job, and where they lie.
ghost use Rattle.std.specs.Prelude.{◌≡◌, true, ◌+◌, ◌<◌, ◌≤◌, length};
ghost use Rattle.octets.specs.Part.{part};
ghost use Rattle.octets.specs.Xor.{◌⊻◌};
ghost use Rattle.octets.specs.Operands.{xor_all};
ghost use Rattle.command.specs.Command.{source_of};
ghost use Rattle.meaning.specs.Acts.{start_of};
ghost use Rattle.gather.specs.Job.{size, Readable};
ghost use Rattle.gather.specs.Pieces.{entries_from, seed_piece, int_piece};
ghost use Rattle.gather.specs.Starts.{starts_over};

use crate::Job;
use command::Source;
use geometry::Frame;

// A job whose operands all lie in the image or among the bytes sent.
#[derive(Clone, Copy)]
pub struct Gathering<'i, 's> {
    pub shelf: Frame<'i>,
    pub sent: &'s [u8],
    pub job: Job,
    ghost readable: { Readable shelf.image.now shelf.g sent.now job },
}

impl<'i, 's> Gathering<'i, 's> {
    // Where the blocks of entry i start; there is a drive where a source was allowed.
    pub fn start(&self, i: usize) -> usize
        requires { i < self.now.job.sources }
        ensures { result ≡ start_of self.now.shelf.image.now self.now.shelf.g self.now.job.sum.came (source_of self.now.sent.now i) }
    {
        let x = Source::read(self.sent, i);
        let found = drives::find_source(self.shelf, self.job.sum.came, x.address);
        self.shelf.g.place(found.unwrap_or(0), x.block)
    }

    // Writes where the blocks of each entry start.
    #[tactic(auto, using(crate::specs::Starts::starts_none, crate::specs::Starts::starts_more, crate::specs::Starts::starts_done))]
    pub fn find_all(&self, places: &mut [usize])
        requires { length places.old ≡ self.now.job.sources }
        ensures { places.new ≡ starts_over self.now.shelf.image.now self.now.shelf.g self.now.job.sum.came self.now.sent.now places.old self.now.job.sources }
    {
        for (i, place) in places.iter_mut().enumerate() {
            *place = self.start(i);
        }
    }

    // What the sources are XORed to: the bytes of the own blocks from o on, or zeros.
    #[tactic(auto, unfolding(crate::specs::Pieces::seed_piece))]
    pub fn seed(&self, acc: &mut [u8], o: usize)
        requires { o + length acc.old ≤ size self.now.shelf.g self.now.job }
        ensures { acc.new ≡ seed_piece self.now.shelf.image.now self.now.job.own o (length acc.old) }
    {
        match self.job.own {
            Some(from) => octets::copy_from(acc, self.shelf.image, from + o),
            None => acc.fill(0),
        }
    }

    // XORs into acc the bytes from o on of the sources left, from entry i on: those of entry i, and then "the
    // rest of the list XORed in turn", for which 01 names a recursion, the count left falling.
    #[tactic(auto, using(crate::specs::InTurn::rest_end, crate::specs::InTurn::rest_more))]
    pub fn xor_rest(&self, acc: &mut [u8], i: usize, left: usize, o: usize)
        requires { (i + left ≤ self.now.job.sources) × (o + length acc.old ≤ size self.now.shelf.g self.now.job) }
        ensures { acc.new ≡ acc.old ⊻ part (xor_all (entries_from self.now.shelf.image.now self.now.shelf.g self.now.sent.now self.now.job i left)) o (length acc.old) }
    {
        if left == 0 {
            return;
        }
        octets::xor_from(acc, self.shelf.image, self.start(i) + o);
        self.xor_rest(acc, i + 1, left - 1, o);
    }
}

// XORs into acc, with int, the bytes from o on of what follows the list, which ends at index at.
#[tactic(auto, using(crate::specs::InTurn::int_none, crate::specs::InTurn::int_add))]
pub fn xor_int(acc: &mut [u8], int: bool, sent: &[u8], at: usize, o: usize)
    requires { (at ≤ length sent.now) × (int ≡ true → at + o + length acc.old ≤ length sent.now) }
    ensures { acc.new ≡ acc.old ⊻ int_piece int sent.now (at + o) (length acc.old) }
{
    if int {
        octets::xor_from(acc, &sent[at..], o);
    }
}
