ghost use Rattle.std.specs.Prelude.{◌≡◌, Ok, Option};
ghost use Rattle.trees.specs.Tree.{Tree, entries_if_any};
ghost use Rattle.trees.specs.Find.{lookup};
ghost use Rattle.pool.specs.Walks.{Rooted};

use crate::descent::leaf_towards;
use crate::step::Reach;
use keys::{KeyKind, same_key};
use pool::{Node, OutOfOrder};

/// The record at a key of the tree at `root`.
pub fn look<K: KeyKind, V: Copy>(
    nodes: &[Node<K, V>],
    root: Option<u16>,
    key: K,
) -> Result<Option<V>, OutOfOrder>
    ensures finds_the_record { (map : Option (Tree K V)) → Rooted (K.KeyKind) nodes.now root map → result ≡ Ok (lookup (K.KeyKind) (entries_if_any map) key) }
{
    let Some(top) = root else {
        return Ok(None);
    };
    let landing = leaf_towards(nodes, top, Reach::AnyPlace, key)?;
    Ok(same_key(landing.own, key).then_some(landing.held))
}
