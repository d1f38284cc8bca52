// Numbers of as many bytes as there are.
ghost use Rattle.std.specs.Prelude.{◌≡◌, ◌^◌, ◌<◌, ◌≤◌, true, length, is_some, IfSome};
ghost use Rattle.number_bytes.specs.BigEndian.{big_endian, from_big_endian};
ghost use Rattle.std.specs.Option.{SomeIff};

/// Fills `out` with the lowest bytes of `n`, as many as there is room for, the highest of them first.
pub fn write_number(n: u64, out: &mut [u8])
    ensures lowest_bytes { out.new ≡ big_endian (length out.old) n }
{
    let mut rest = n;
    // By index, since of what a loop over `out.iter_mut().rev()` writes a proof learns nothing.
    for i in (0..out.len()).rev() {
        out[i] = (rest % 256) as u8;
        rest /= 256;
    }
}

/// The number that `bytes` write, or `None` exactly where it does not fit 64 bits.
pub fn read_number(bytes: &[u8]) -> Option<u64>
    ensures the_number_where_it_fits { SomeIff result (from_big_endian bytes.now < 2 ^ 64) (from_big_endian bytes.now) }
    ensures writes_back { IfSome result (λ n. big_endian (length bytes.now) n ≡ bytes.now) }
    ensures eight_bytes_fit { length bytes.now ≤ 8 → is_some result ≡ true }
{
    let mut n: u64 = 0;
    for byte in bytes {
        n = n.checked_mul(256)? + u64::from(*byte);
    }
    Some(n)
}
