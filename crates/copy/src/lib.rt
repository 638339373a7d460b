// Bytes copied from one slice into another. Exactly the bytes are stored.
#![tactic(auto)]

ghost use Rattle.std.specs.Prelude.{◌≡◌, ◌+◌, ◌*◌, ◌≤◌, length, leb, if◌then◌else◌};
ghost use Rattle.spec.specs.Base.{part};
ghost use Rattle.wire.specs.Answers.{stored};

// The largest piece that is copied at once.
const PIECE: usize = 64;

// The N bytes from place i on, to the same place. They are an array in between, so all are loaded before one is stored: up to 16 take one load and one store.
fn put_piece<const N: usize>(from: &[u8], i: usize, to: &mut [u8])
    requires { (length from.now ≡ length to.old) × (i + N ≤ length from.now) }
    ensures { to.new ≡ stored i (part i (i + N) from.now) to.old }
{
    let piece = <[u8; N]>::try_from(&from[i..i + N]).unwrap();
    to[i..i + N].copy_from_slice(&piece);
}

// From N to 2 * N bytes: the first N and the last N, which may overlap.
fn put_ends<const N: usize>(from: &[u8], to: &mut [u8])
    requires { (length from.now ≡ length to.old) × (N ≤ length from.now) × (length from.now ≤ 2 * N) }
    ensures { to.new ≡ from.now }
{
    put_piece::<N>(from, 0, to);
    put_piece::<N>(from, from.len() - N, to);
}

// From PIECE bytes on: piece after piece, and the last PIECE bytes, which may overlap the piece before. The library's copy of a whole slice is not used for
// many bytes: it is a call of `memmove`, a name that the archive for C would then need from outside.
fn put_pieces(from: &[u8], to: &mut [u8])
    requires { (length from.now ≡ length to.old) × (64 ≤ length from.now) }
    ensures { to.new ≡ from.now }
{
    let last = from.len() - PIECE;
    let mut i = 0;
    while i < last {
        put_piece::<PIECE>(from, i, to);
        i += PIECE;
    }
    put_piece::<PIECE>(from, last, to);
}

// All the bytes. Up to three are stored one by one with no branch on how many there are: one place may be stored twice or three times.
fn put_all(from: &[u8], to: &mut [u8])
    requires { length from.now ≡ length to.old }
    ensures { to.new ≡ from.now }
{
    let n = from.len();
    if PIECE <= n {
        put_pieces(from, to);
    } else if 32 <= n {
        put_ends::<32>(from, to);
    } else if 16 <= n {
        put_ends::<16>(from, to);
    } else if 8 <= n {
        put_ends::<8>(from, to);
    } else if 4 <= n {
        put_ends::<4>(from, to);
    } else if 0 < n {
        to[0] = from[0];
        to[n / 2] = from[n / 2];
        to[n - 1] = from[n - 1];
    }
}

// Stores the bytes in `out` from `at` on; where there is no room for them, `out` stays as it was. The answer: whether they were stored.
pub fn put_bytes(from: &[u8], out: &mut [u8], at: usize) -> bool
    ensures { (result ≡ leb (at + length from.now) (length out.old))
        × (out.new ≡ (if leb (at + length from.now) (length out.old) then stored at from.now out.old else out.old)) }
{
    let n = from.len();
    if out.len() < at || out.len() - at < n {
        return false;
    }
    put_all(from, &mut out[at..at + n]);
    true
}
