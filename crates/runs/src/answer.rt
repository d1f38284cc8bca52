use causes::Cause;

/// What a call that was carried out answers.
// Apart from the script's answers, as the calls are from its calls: that language rests on no pool.
#[derive(Clone, Copy, PartialEq, Eq, Debug)]
pub enum Answer<K, V> {
    /// There is nothing to tell.
    Done,
    /// A record, or none.
    Found(Option<V>),
    /// A key with its record, or none.
    Entry(Option<(K, V)>),
    /// A number of keys or of nodes.
    Number(u16),
}

/// What comes of a call: its answer, or why it was refused; on a pool in good order, or of another length, a refusal
/// changed nothing.
pub type Reply<K, V> = Result<Answer<K, V>, Cause>;
