/// One node of a lent pool. Indices of nodes have 16 bits.
// Trees by index in a slice, and no boxes: the library has no heap, its caller lends the memory. The fields of a branch
// stand in the variant, so that anyone makes a node from its parts.
#[derive(Clone, Copy, PartialEq, Eq, Debug)]
pub enum Node<K, V> {
    /// Not in use; the free node after this one.
    Free {
        next: u16,
    },
    /// A key and its record.
    Leaf {
        key: K,
        record: V,
    },
    /// The place at which the two sides part, one key whose first bits are the prefix of all below, and the sides.
    Branch {
        place: u8,
        key: K,
        zero: u16,
        one: u16,
    },
}
