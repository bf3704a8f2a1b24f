// A number that none of those before it is.
ghost use Rattle.std.specs.Prelude.{◌≡◌, ◌<◌, length, set};
ghost use Rattle.octets.specs.New.{new_to};

// Is x none of the first n numbers kept? It is kept behind them. Each of them is compared, so that several are at once.
// The slice and n are no struct: n is the index of the caller's loop, and a struct would hold it twice.
pub fn keep_new(kept: &mut [u32], n: usize, x: usize) -> bool
    requires { (n < length kept.old) × (x < 4294967296) }
    ensures { (result ≡ new_to kept.old n x) × (kept.new ≡ set kept.old n x) }
{
    let own = x as u32;
    let mut new = true;
    for k in &kept[..n] {
        new &= *k != own;
    }
    kept[n] = own;
    new
}
