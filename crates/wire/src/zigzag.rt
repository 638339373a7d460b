// Zigzag: 0, -1, 1, -2 .. are 0, 1, 2, 3 ... On the signed types, and on 64-bit patterns, in which a record holds a signed number. Each width has a name of its own,
// as in the crate: one function over the type would be no plainer.
ghost use Rattle.std.specs.Prelude.{◌≡◌};
ghost use Rattle.std.specs.Int.{w64};
ghost use Rattle.std.proofs.Common.{of_z};
ghost use Rattle.spec.specs.Varint as spec;

// The pattern of the signed number that `n` stands for.
pub fn unzigzag(n: u64) -> u64
    ensures { result ≡ spec.unzigzag n }
{
    if n % 2 == 0 {
        n / 2
    } else {
        0xffff_ffff_ffff_ffff - n / 2
    }
}

// What stands for the signed number of this pattern.
pub fn zigzag(pattern: u64) -> u64
    ensures { result ≡ spec.zigzag pattern }
{
    if pattern < 0x8000_0000_0000_0000 {
        pattern * 2
    } else {
        (0xffff_ffff_ffff_ffff - pattern) * 2 + 1
    }
}

// The signed number that `n` stands for.
pub fn decode_zig_zag_64(n: u64) -> i64
    ensures { of_z w64 result ≡ spec.unzigzag n }
{
    let half = (n / 2) as i64;
    if n % 2 == 0 {
        return half;
    }
    -1 - half
}

pub fn decode_zig_zag_32(n: u32) -> i32
    ensures { of_z w64 result ≡ spec.unzigzag n }
{
    let half = (n / 2) as i32;
    if n % 2 == 0 {
        return half;
    }
    -1 - half
}

// What stands for a signed number.
pub fn encode_zig_zag_64(n: i64) -> u64
    ensures { result ≡ spec.zigzag (of_z w64 n) }
{
    if n < 0 {
        let below = (-1 - n) as u64;
        return below * 2 + 1;
    }
    n as u64 * 2
}

pub fn encode_zig_zag_32(n: i32) -> u32
    ensures { result ≡ spec.zigzag (of_z w64 n) }
{
    if n < 0 {
        let below = (-1 - n) as u32;
        return below * 2 + 1;
    }
    n as u32 * 2
}
