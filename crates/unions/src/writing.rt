// What the steps of a union write.
ghost use Rattle.std.specs.Prelude.{ℕ, List, ◌∷◌, length, MatchResult, ◌≢◌};
ghost use Rattle.pool.specs.Slice.{Chain};
ghost use Rattle.unions.specs.Steps.{Leveled, Parted, Sided, Swapped, Unbranched, Unleveled};

use crate::job::Job;
use crate::step::Step;
use edits::inner::join_leaf;
use keys::KeyKind;
use pool::inner::{release, take_free, write_node};
use pool::{Account, Node, OutOfOrder};
use records::Joining;
use walks::inner::{Sides, branch_over};

/// The trees of a job part at `place`: a branch there holds both, and what stood at the first's node, whose key is
/// `key`, moves to a free one.
pub fn part<K: KeyKind, V: Copy>(
    nodes: &mut [Node<K, V>],
    account: Account,
    job: Job,
    old: Node<K, V>,
    place: u8,
    key: K,
) -> Result<Account, OutOfOrder>
    ensures parted_or_none_free { MatchResult result (λ a. Parted (K.KeyKind) nodes.old nodes.new account job old place key a) (λ _. ((i : ℕ) (is : List ℕ) → Chain nodes.old account.head (i ∷ is) → length (i ∷ is) ≢ account.free)) }
{
    let (moved, after) = take_free(nodes, account)?;
    let sides = Sides {
        near: moved,
        far: job.from,
    };
    let fork = branch_over(place, key, key.bit_at(place), sides);
    write_node(nodes, moved, old);
    write_node(nodes, job.into, fork);
    Ok(after)
}

/// The side of the branch `node` that the bit of `key` names, to unite the job's second tree into.
pub fn side_job<K: KeyKind, V: Copy>(node: Node<K, V>, key: K, job: Job) -> Result<Job, OutOfOrder>
    ensures side_by_bit { MatchResult result (λ next. Sided (K.KeyKind) node key job next) (λ _. Unbranched node) }
{
    let Node::Branch {
        place,
        zero,
        one,
        ..
    } = node
    else {
        return Err(OutOfOrder);
    };
    let sides = Sides::by(key.bit_at(place), zero, one);
    Ok(Job {
        into: sides.near,
        ..job
    })
}

/// The branch `over` of the job's second tree takes the first's node; what stood there, whose key is `key`, takes the
/// branch's node, on the side that its bit names, to be united with what the branch had there.
pub fn swap_over<K: KeyKind, V: Copy>(
    nodes: &mut [Node<K, V>],
    job: Job,
    old: Node<K, V>,
    over: Node<K, V>,
    key: K,
) -> Result<Job, OutOfOrder>
    ensures swapped { MatchResult result (λ next. Swapped (K.KeyKind) nodes.old nodes.new job old over key next) (λ _. Unbranched over) }
{
    let Node::Branch {
        place,
        key: own,
        zero,
        one,
    } = over
    else {
        return Err(OutOfOrder);
    };
    let bit = key.bit_at(place);
    let sides = Sides::by(bit, zero, one);
    let sides_now = Sides {
        near: job.from,
        far: sides.far,
    };
    write_node(nodes, job.from, old);
    write_node(nodes, job.into, branch_over(place, own, bit, sides_now));
    Ok(Job {
        into: job.from,
        from: sides.near,
    })
}

/// Two nodes at one place: of two branches the second is given back and their sides are left to do; two leaves, which
/// have one key, join their records, and the second is given back.
pub fn level<K: KeyKind, V: Joining>(
    nodes: &mut [Node<K, V>],
    account: Account,
    job: Job,
    first: Node<K, V>,
    second: Node<K, V>,
) -> Result<(Account, Step), OutOfOrder>
    ensures leveled_or_not_alike { MatchResult result (λ o. Leveled V.Joining.joined nodes.old nodes.new account job first second o.0 o.1) (λ _. Unleveled nodes.old account job first second) }
{
    match (first, second) {
        (
            Node::Branch { zero, one, .. },
            Node::Branch {
                zero: other_zero,
                one: other_one,
                ..
            },
        ) => {
            let after = release(nodes, account, job.from)?;
            let on_zero = Job {
                into: zero,
                from: other_zero,
            };
            let on_one = Job {
                into: one,
                from: other_one,
            };
            Ok((after, Step::Both(on_zero, on_one)))
        }
        (Node::Leaf { key, record }, Node::Leaf { record: other, .. }) => {
            join_leaf(nodes, job.into, key, record, other);
            let after = release(nodes, account, job.from)?;
            Ok((after, Step::Done))
        }
        _ => Err(OutOfOrder),
    }
}
