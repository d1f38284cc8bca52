//! Patricia trees as the contracts speak of them. No code runs here: the functions carry theorems.

#![tactic(auto)]

ghost use Rattle.trees.specs.Theorems.{OneTree, EntriesRise};

use keys::KeyKind;

/// A map has one tree: two trees in order that find the same at every key are the same tree, but for
/// the nodes that store them and the key that a branch carries.
pub fn one_tree_for_a_map<K: KeyKind, V: Copy>()
    ensures same_finds_same_tree { OneTree V (K.KeyKind) }
{}

/// The keys of a tree in order rise from side 0 to side 1.
pub fn entries_rise<K: KeyKind, V: Copy>()
    ensures keys_rise { EntriesRise V (K.KeyKind) }
{}
