use pool::Account;

/// What a removal answers: the record that was at the key, if any, where the tree begins now, and the account.
#[derive(Drop)]
pub struct Removal<V> {
    pub held: Option<V>,
    pub root: Option<u16>,
    pub account: Account,
}
