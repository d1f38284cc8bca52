ghost use Rattle.std.specs.Prelude.{◌≡◌, cond, Some, None, Ok, Option};
ghost use Rattle.trees.specs.Tree.{Tree, entries_if_any};
ghost use Rattle.trees.specs.Find.{first_after};
ghost use Rattle.pool.specs.Walks.{Rooted};
ghost use Rattle.walks.specs.Leads.{FindsFirst, FindsAfter};

use crate::descent::descend;
use crate::step::{Reach, Step, step_at};
use crate::turn::{Turn, turn_at};
use keys::{KeyKind, comes_before};
use pool::{Node, OutOfOrder};

// The first entry of the tree at `top`: down side 0 to its end.
fn leftmost<K: KeyKind, V: Copy>(nodes: &[Node<K, V>], top: u16) -> Result<(K, V), OutOfOrder>
    ensures first_entry { FindsFirst (K.KeyKind) nodes.now top result }
{
    let landing = descend(nodes, top, Reach::AnyPlace, |_| false)?;
    Ok((landing.own, landing.held))
}

// The first entry of the map at `root`.
fn first_of<K: KeyKind, V: Copy>(
    nodes: &[Node<K, V>],
    root: Option<u16>,
) -> Result<Option<(K, V)>, OutOfOrder>
    ensures first_entry_if_any { (map : Option (Tree K V)) → Rooted (K.KeyKind) nodes.now root map → result ≡ Ok (first_after (K.KeyKind) None (entries_if_any map)) }
{
    let Some(top) = root else {
        return Ok(None);
    };
    let first = leftmost(nodes, top)?;
    Ok(Some(first))
}

// Where a walk goes on below a branch whose prefix the bound shares, and where the entries begin that come after
// whatever it may find there. Two pairs side by side: `Sides::by` would name one of each, and the bit decide once more.
fn go_along(to_one: bool, zero: u16, one: u16, later: Option<u16>) -> (u16, Option<u16>)
    ensures side_one_is_later { result ≡ cond to_one (one, later) (zero, Some one) }
{
    if to_one {
        (one, later)
    } else {
        (zero, Some(one))
    }
}

// The first entry after a bound in the tree at `top`.
fn entry_after<K: KeyKind, V: Copy>(
    nodes: &[Node<K, V>],
    top: u16,
    bound: K,
) -> Result<Option<(K, V)>, OutOfOrder>
    ensures first_entry_after { FindsAfter (K.KeyKind) nodes.now bound top result }
{
    let mut at = top;
    let mut least: u16 = 0;
    // side 1 of the last branch at which the bound went to side 0: all of it comes after the bound
    let mut later: Option<u16> = None;
    loop {
        match step_at(nodes, at, least, Reach::AnyPlace)? {
            Step::Leaf { key, record } => {
                if comes_before(bound, key) {
                    return Ok(Some((key, record)));
                }
                return first_of(nodes, later);
            }
            Step::Branch {
                place,
                prefix,
                zero,
                one,
            } => match turn_at(bound, prefix, place) {
                Turn::After => return first_of(nodes, Some(zero)),
                Turn::Before => return first_of(nodes, later),
                Turn::Along { one: to_one } => {
                    let (side, rest) = go_along(to_one, zero, one, later);
                    least = place as u16 + 1;
                    at = side;
                    later = rest;
                }
            },
        }
    }
}

/// The first entry after a bound, or the first of all.
pub fn next<K: KeyKind, V: Copy>(
    nodes: &[Node<K, V>],
    root: Option<u16>,
    bound: Option<K>,
) -> Result<Option<(K, V)>, OutOfOrder>
    ensures finds_the_next_entry { (map : Option (Tree K V)) → Rooted (K.KeyKind) nodes.now root map → result ≡ Ok (first_after (K.KeyKind) bound (entries_if_any map)) }
{
    let Some(bound) = bound else {
        return first_of(nodes, root);
    };
    let Some(top) = root else {
        return Ok(None);
    };
    entry_after(nodes, top, bound)
}
