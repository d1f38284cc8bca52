ghost use Rattle.std.specs.Prelude.{List, [], ◌∷◌, MatchResult};
ghost use Rattle.pool.specs.declared.node.Node.{Node};
ghost use Rattle.pool.specs.declared.account.Account.{Account};
ghost use Rattle.unions.specs.Work.{Work};
ghost use Rattle.unions.specs.Unites.{Unites};

use crate::job::Job;
use crate::step::Step;
use crate::stepping::step;
use edits::InsertFault;
use keys::KeyKind;
use pool::inner::Stack;
use pool::{Account, Node, OutOfOrder};
use records::Joining;

// where both maps hold something, a branch over both may be wanted
const NODES_OF_A_UNION: u16 = 1;

// Unites the tree at `other` into the one at `top`. Each turn settles one node for good, so that as many turns as the
// pool has nodes are enough; on a slice out of order they run out.
fn unite_trees<K: KeyKind, V: Joining>(
    nodes: &mut [Node<K, V>],
    start: Account,
    top: u16,
    other: u16,
) -> Result<Account, OutOfOrder>
    ensures does_the_work { MatchResult result (λ a. Work (K.KeyKind) V.Joining.joined nodes.old start start.capacity (record { into = top; from = other } ∷ []) nodes.new a) (λ _. ((end : List (Node K V)) (last : Account) → Work (K.KeyKind) V.Joining.joined nodes.old start start.capacity (record { into = top; from = other } ∷ []) end last)) }
{
    let mut account = start;
    let mut job = Job {
        into: top,
        from: other,
    };
    let mut waiting = Stack::new(job);
    for _ in 0..start.capacity {
        let (after, left) = step(nodes, account, job)?;
        account = after;
        job = match left {
            Step::Done => match waiting.pop() {
                None => return Ok(account),
                Some(next) => next,
            },
            Step::Next(next) => next,
            Step::Both(next, later) => {
                waiting.push(later)?;
                next
            }
        };
    }
    Err(OutOfOrder)
}

/// Unites the map at `other` into the map at `root`: records of keys that both have are joined. Answers where the
/// tree begins now, and the account. Where both hold something, one free node is wanted.
// A pair, as an insertion answers, which the caller takes apart at once.
pub fn unite<K: KeyKind, V: Joining>(
    nodes: &mut [Node<K, V>],
    account: Account,
    root: Option<u16>,
    other: Option<u16>,
) -> Result<(Option<u16>, Account), InsertFault>
    ensures joins_two_maps { Unites (K.KeyKind) V.Joining.joined nodes.old nodes.new account root other result }
{
    let Some(top) = root else {
        return Ok((other, account));
    };
    let Some(second) = other else {
        return Ok((root, account));
    };
    if account.free < NODES_OF_A_UNION {
        return Err(InsertFault::TooFewNodes);
    }
    let after = unite_trees(nodes, account, top, second)?;
    Ok((root, after))
}
