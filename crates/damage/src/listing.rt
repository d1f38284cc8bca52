use crate::harm::Harm;
use crate::stock::NODES;
use keys::Word;
use pool::{Book, MOST_NODES, Node, Shelf};
use records::Mark;
use std::alloc::Global;

/// A node that no tree of the stocked pool uses.
const UNUSED: u16 = 14;

const FAR: u16 = u16::MAX;

const PLACES: [u8; 7] = [0, 28, 30, 31, 32, 64, 255];

/// Every harm that is tried. A few of them, as a row with the root that it had, leave the pool as it was.
pub(crate) fn every_harm(heap: Global, book: &Book) -> anyhow::Result<Vec<Harm>> {
    let mut harms = Vec::new(heap);
    nodes(&mut harms)?;
    for (shelf, sound) in (0..2).zip(&book.shelves) {
        roots(&mut harms, shelf, *sound)?;
        key_counts(&mut harms, shelf, *sound)?;
    }
    accounts(&mut harms, book.account.free)?;
    Ok(harms)
}

fn nodes(harms: &mut Vec<Harm>) -> anyhow::Result<()> {
    for at in 0..NODES {
        free_nodes(harms, at)?;
        leaves(harms, at)?;
        branches(harms, at)?;
    }
    Ok(())
}

/// A free node before itself, before another, and past the end.
fn free_nodes(harms: &mut Vec<Harm>, at: u16) -> anyhow::Result<()> {
    for next in [at, at ^ 1, UNUSED, NODES, FAR] {
        let node = Node::Free { next };
        harms.push(Harm::Node { at, node })?;
    }
    Ok(())
}

/// A leaf of a key that may be there already, or belong elsewhere.
fn leaves(harms: &mut Vec<Harm>, at: u16) -> anyhow::Result<()> {
    for light in [0, 5, 8, u32::MAX] {
        let node = Node::Leaf {
            key: Word { light },
            record: Mark,
        };
        harms.push(Harm::Node { at, node })?;
    }
    Ok(())
}

/// Branches at right and at wrong places.
fn branches(harms: &mut Vec<Harm>, at: u16) -> anyhow::Result<()> {
    for place in PLACES {
        branches_of(harms, at, place)?;
    }
    Ok(())
}

/// Branches with sides that make a cycle, are shared, are free, or stand past the end.
fn branches_of(harms: &mut Vec<Harm>, at: u16, place: u8) -> anyhow::Result<()> {
    let other = at ^ 1;
    let sides = [
        (at, at),
        (other, at),
        (other, other),
        (0, 1),
        (2, 2),
        (FAR, FAR),
        (UNUSED, UNUSED),
    ];
    for (zero, one) in sides {
        let node = Node::Branch {
            place,
            key: Word { light: 5 },
            zero,
            one,
        };
        harms.push(Harm::Node { at, node })?;
    }
    Ok(())
}

/// Rows whose tree begins elsewhere.
fn roots(harms: &mut Vec<Harm>, shelf: u8, sound: Shelf) -> anyhow::Result<()> {
    for root in (0..=NODES).chain([FAR]).map(Some).chain([None]) {
        row(harms, shelf, root, sound.keys)?;
    }
    Ok(())
}

/// Rows with a wrong number of keys.
fn key_counts(harms: &mut Vec<Harm>, shelf: u8, sound: Shelf) -> anyhow::Result<()> {
    for keys in [0, MOST_NODES, FAR] {
        row(harms, shelf, sound.root, keys)?;
    }
    Ok(())
}

fn row(harms: &mut Vec<Harm>, shelf: u8, root: Option<u16>, keys: u16) -> anyhow::Result<()> {
    let row = Shelf { root, keys };
    harms.push(Harm::Row { shelf, row })?;
    Ok(())
}

/// Free chains that begin elsewhere, with right and wrong numbers of free nodes.
fn accounts(harms: &mut Vec<Harm>, free: u16) -> anyhow::Result<()> {
    for head in 0..=NODES {
        harms.push(Harm::Account { head, free })?;
        harms.push(Harm::Account { head, free: 0 })?;
        harms.push(Harm::Account { head, free: 1 })?;
        harms.push(Harm::Account { head, free: NODES })?;
    }
    harms.push(Harm::Account { head: FAR, free })?;
    Ok(())
}
