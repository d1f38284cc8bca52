ghost use Rattle.std.specs.Prelude.{◌≡◌, ℕ, ◌<◌, ◌≤◌, List, length, slice_index};
ghost use Rattle.records.specs.Encoding.{Fills, Reads, Spares};

/// A kind of record, and how its records are written as bytes.
///
/// A kind of up to 64 bytes can go into files. A wider kind says 65: it can be kept in maps and joined, its
/// methods must be safe to call, and of its bytes it owes nothing and promises nothing.
pub trait RecordKind: Copy {
    /// The number by which files name the kind.
    const CODE: u16;

    /// How many bytes a record takes, or 65.
    // A number and no `Option`, as makers know it: 65 is one of the widths that a kind may say.
    const WIDTH: u8;

    // The two constants again, as contracts name them: the check proves each equal to its constant.
    ghost CODE: { ℕ };

    ghost WIDTH: { ℕ };
    // The bytes that each record is written as.
    ghost bytes: { Self → List ℕ };

    /// Fills a slice of exactly the kind's width with the record's bytes, and leaves any other slice as it was.
    fn write(self, out: &mut [u8])
        ensures fills_its_width { Fills WIDTH (bytes self) out.old out.new }
        ensures other_length_unchanged { Spares WIDTH out.old out.new };

    /// The record that is written as exactly these bytes, or `None` where no record is.
    fn read(from: &[u8]) -> Option<Self>
        ensures reads_what_is_written { Reads WIDTH bytes from.now result };

    // The code fits two bytes, so a caller may write it into a file's head.
    ghost coded: { CODE < 65536 };

    // No kind says more than 65, so the widths of two kinds can be added without fear of wrapping.
    ghost bounded: { WIDTH ≤ 65 };

    // Every record takes exactly the kind's width, so a caller may lay records side by side and find each by counting.
    ghost sized: { WIDTH ≤ 64 → (a : Self) → length (bytes a) ≡ WIDTH };

    // What a record is written as are bytes, so a slice of bytes can hold it.
    ghost octets: { WIDTH ≤ 64 → (a : Self) (i : ℕ) → slice_index (bytes a) i < 256 };

    // Records that are written alike are the same, so a caller may compare bytes for records.
    ghost distinct: { WIDTH ≤ 64 → (a b : Self) → bytes a ≡ bytes b → a ≡ b };
}
