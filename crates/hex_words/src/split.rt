// The words of a line.
ghost use Rattle.std.specs.Prelude.{◌≡◌, ◌+◌};
ghost use Rattle.folds.specs.Same.{same_list};
ghost use Rattle.hex_words.specs.Words.{Cut};

// Where the first word ends: at the first space, or at the end.
pub fn cut(line: &[u8]) -> usize
    ensures { Cut line.now result }
{
    line.iter().position(|b| *b == b' ').unwrap_or(line.len())
}

// Are the words one? It stays beside std's `==` as a public function, in the words of the definition (`same_list`).
pub fn same(v: &[u8], w: &[u8]) -> bool
    ensures { result ≡ same_list v.now w.now }
{
    v == w
}
