// Numbers of a fixed count of bytes.
ghost use Rattle.std.specs.Prelude.{◌≡◌, ◌≢◌, ◌≤◌, ℕ, length};
ghost use Rattle.std.proofs.Common.{rules, arith};
ghost use Rattle.number_bytes.specs.BigEndian.{ReadsNumber, WrittenAs, big_endian};

/// An unsigned number of `N` bytes, which are written with the highest byte first.
pub trait FixedWidth<const N: usize>: Copy {
    // The number as contracts see it.
    ghost number: { Self → ℕ };

    /// The number's bytes.
    fn to_bytes(self) -> [u8; N]
        ensures written { result ≡ big_endian N (number self) };

    /// The number that so many bytes write.
    fn from_array(bytes: &[u8; N]) -> Self
        ensures reads_them { WrittenAs N bytes.now (number result) };

    /// Fills a slice of exactly `N` bytes with the number's, and leaves any other slice as it was.
    fn write(self, out: &mut [u8])
        ensures fills_so_many { length out.old ≡ N → out.new ≡ big_endian N (number self) }
        ensures other_length_unchanged { (length out.old ≢ N) → out.new ≡ out.old }
    {
        if out.len() == N {
            out.copy_from_slice(&self.to_bytes());
        }
    }

    /// The number that the bytes of a slice write, or `None` where there are not `N`.
    fn read(bytes: &[u8]) -> Option<Self>
        ensures reads_so_many { ReadsNumber number N bytes.now result }
    {
        let array = <[u8; N]>::try_from(bytes).ok()?;
        Some(Self::from_array(&array))
    }

    // No number has more than eight bytes, so that every array of its bytes fits the memory.
    ghost narrow: { N ≤ 8 };
}

impl FixedWidth<2> for u16 {
    ghost number = { λ n. n };

    ghost narrow = { Prim.search rules };

    fn to_bytes(self) -> [u8; 2] {
        u16::to_be_bytes(self)
    }

    fn from_array(bytes: &[u8; 2]) -> u16 {
        u16::from_be_bytes(*bytes)
    }
}

impl FixedWidth<4> for u32 {
    ghost number = { λ n. n };

    ghost narrow = { Prim.search rules };

    fn to_bytes(self) -> [u8; 4] {
        u32::to_be_bytes(self)
    }

    fn from_array(bytes: &[u8; 4]) -> u32 {
        u32::from_be_bytes(*bytes)
    }
}
