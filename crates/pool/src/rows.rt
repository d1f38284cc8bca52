ghost use Rattle.std.specs.Prelude.{◌≡◌, ◌+◌, ◌-◌, ◌*◌, ◌<◌, ◌≤◌, [], ◌∷◌};
ghost use Rattle.pool.specs.Books.{AccountOf, OtherRowsSame, Settled, SettledOver, keys_after};
ghost use Rattle.pool.specs.GoodOrder.{empty_row};

use crate::account::{Account, MOST_NODES};
use crate::book::{Book, SHELVES};
use crate::shelf::Shelf;

impl Account {
    /// An account from its numbers, or none where they break its bounds.
    // Not `TryFrom` of three numbers, which in a tuple have no names.
    pub fn from_parts(capacity: u16, head: u16, free: u16) -> Option<Account>
        ensures within_its_bounds { AccountOf capacity head free result }
    {
        if free > capacity || capacity > MOST_NODES {
            return None;
        }
        Some(Account {
            capacity,
            head,
            free,
        })
    }
}

// The nodes of a map of so many keys.
fn nodes_of(keys: u16) -> u32
    ensures two_for_each_key_but_one { result ≡ 2 * keys - 1 }
{
    (2 * keys as u32).saturating_sub(1)
}

// The number of keys after a call that moved a map over: `moved` are the nodes of that map, which may be used now too.
fn keys_after_move(keys: u16, free: u16, moved: u32, free_now: u16) -> u16
    requires not_too_many { moved ≤ 900000 }
    ensures counted_by_nodes { result ≡ keys_after keys (free + moved) free_now }
{
    let nodes = nodes_of(keys) + free as u32 + moved;
    let used = nodes.saturating_sub(free_now as u32);
    let count = (used + 1) / 2;
    count.min(MOST_NODES as u32) as u16
}

// The number of keys after a call: a map of k keys has 2 k - 1 nodes, and what is free was used before or is used now.
fn keys_after(keys: u16, free: u16, free_now: u16) -> u16
    ensures counted_by_nodes { result ≡ keys_after keys free free_now }
{
    keys_after_move(keys, free, 0, free_now)
}

impl Book {
    /// A book from its account and its eight rows.
    // Not `From` of the pair: its parts have names here.
    pub fn from_parts(account: Account, shelves: [Shelf; SHELVES]) -> Book
        ensures has_these_parts { (result.account ≡ account) × (result.shelves ≡ shelves) }
    {
        Book { account, shelves }
    }

    /// Settles the book after a call on one shelf: the account that the call left, and the row of that shelf. No other
    /// row changes; a shelf that there is not changes nothing.
    pub fn settle(&mut self, shelf: u8, root: Option<u16>, account: Account)
        ensures row_and_account_settled { shelf < 8 → Settled self.old self.new shelf root account }
        ensures other_rows_unchanged { OtherRowsSame self.old self.new (shelf ∷ []) }
        ensures no_shelf_changes_nothing { 8 ≤ shelf → self.new ≡ self.old }
    {
        if shelf as usize >= SHELVES {
            return;
        }
        let before = self.shelves[shelf as usize];
        let keys = keys_after(before.keys, self.account.free, account.free);
        self.account = account;
        self.shelves[shelf as usize] = Shelf { root, keys };
    }

    /// Settles the book after a call that moved the map of the shelf `from` over to the shelf `into`: the account that
    /// the call left, the row of `into`, and an empty row for `from`. No other row changes; a shelf that there is not
    /// changes nothing.
    pub fn settle_over(&mut self, into: u8, from: u8, root: Option<u16>, left: Account)
        ensures rows_and_account_settled { into < 8 → from < 8 → SettledOver self.old self.new into from root left }
        ensures other_rows_unchanged { OtherRowsSame self.old self.new (into ∷ (from ∷ [])) }
        ensures no_shelf_changes_nothing { (8 ≤ into → self.new ≡ self.old) × (8 ≤ from → self.new ≡ self.old) }
    {
        if into as usize >= SHELVES || from as usize >= SHELVES {
            return;
        }
        let before = self.shelves[into as usize];
        let over = nodes_of(self.shelves[from as usize].keys);
        let keys = keys_after_move(before.keys, self.account.free, over, left.free);
        self.account = left;
        self.shelves[from as usize] = Shelf::EMPTY;
        self.shelves[into as usize] = Shelf { root, keys };
    }
}
