/// A call on the maps of a pool, as data.
// An enum, and no closures: what a list of calls means is stated of the list.
#[derive(Clone, Copy, PartialEq, Eq, Debug)]
pub enum Call<K, V> {
    Put { shelf: u8, key: K, told: V },
    Look { shelf: u8, key: K },
    Next { shelf: u8, bound: Option<K> },
    Remove { shelf: u8, key: K },
    Clear { shelf: u8 },
    Count { shelf: u8 },
    Free,
}
