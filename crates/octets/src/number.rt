// Big-endian numbers in a slice. They are read as `usize`, so that sums of them need no casts.
ghost use Rattle.std.specs.Prelude.{◌≡◌, ◌+◌, ◌<◌, ◌≤◌, ◌^◌, length, get_or};
ghost use Rattle.octets.specs.Put.{put};
ghost use Rattle.octets.specs.Number.{be, to_be};

// The byte at index at.
pub fn byte(xs: &[u8], at: usize) -> usize
    requires { at < length xs.now }
    ensures { (result ≡ get_or xs.now at 0) × (result < 256) }
{
    usize::from(xs[at])
}

// The number in the N bytes at index at.
pub fn be<const N: usize>(xs: &[u8], at: usize) -> usize
    requires { (at + N ≤ length xs.now) × (N ≤ 8) }
    ensures { (result ≡ be N xs.now at) × (result < 256 ^ N) }
{
    let mut v = 0;
    for x in &xs[at..at + N] {
        v = v * 256 + usize::from(*x);
    }
    v
}

// v's last N bytes.
pub fn to_be<const N: usize>(v: usize) -> [u8; N]
    requires { N ≤ 8 }
    ensures { result ≡ to_be N v }
{
    let bytes = v.to_be_bytes();
    let mut last = [0u8; N];
    last.copy_from_slice(&bytes[8 - N..]);
    last
}

// Writes them at index at.
pub fn put_be<const N: usize>(xs: &mut [u8], at: usize, v: usize)
    requires { (at + N ≤ length xs.old) × (N ≤ 8) }
    ensures { xs.new ≡ put xs.old at (to_be N v) }
{
    crate::put_at(xs, at, &to_be::<N>(v));
}
