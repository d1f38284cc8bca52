use keys::Word;
use records::Mark;
use runs::Call;
use std::fmt;

/// What is tried on each pool.
// An enum, and no table of closures: each deed has a name to print, and a table would have to hand out function values.
#[derive(Clone, Copy)]
pub(crate) enum Deed {
    PutOld,
    PutNew,
    Look,
    Next,
    NextAfter,
    Remove,
    Clear,
    Count,
    Free,
}

impl Deed {
    /// The call on a shelf. Key 5 is on both shelves that have keys, and key 8 on none.
    pub(crate) fn on(self, shelf: u8) -> Call<Word, Mark> {
        let old = Word { light: 5 };
        let new = Word { light: 8 };
        let told = Mark;
        match self {
            Deed::PutOld => Call::Put {
                shelf,
                key: old,
                told,
            },
            Deed::PutNew => Call::Put {
                shelf,
                key: new,
                told,
            },
            Deed::Look => Call::Look { shelf, key: old },
            Deed::Next => Call::Next { shelf, bound: None },
            Deed::NextAfter => Call::Next {
                shelf,
                bound: Some(old),
            },
            Deed::Remove => Call::Remove { shelf, key: old },
            Deed::Clear => Call::Clear { shelf },
            Deed::Count => Call::Count { shelf },
            Deed::Free => Call::Free,
        }
    }
}

impl fmt::Display for Deed {
    fn fmt<W: fmt::Write>(&self, f: &mut fmt::Formatter<W>) -> fmt::Result {
        f.write_str(match self {
            Deed::PutOld => "put of an old key",
            Deed::PutNew => "put of a new key",
            Deed::Look => "look",
            Deed::Next => "next",
            Deed::NextAfter => "next after a key",
            Deed::Remove => "remove",
            Deed::Clear => "clear",
            Deed::Count => "count",
            Deed::Free => "free",
        })
    }
}
