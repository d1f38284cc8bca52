ghost use Rattle.unions.specs.Steps.{GoesOn};

use crate::job::Job;
use crate::meeting::{Meeting, face_of, meet};
use crate::step::Step;
use crate::writing::{level, part, side_job, swap_over};
use keys::KeyKind;
use pool::inner::node_at;
use pool::{Account, Node, OutOfOrder};
use records::Joining;

/// One step of a union: the first nodes of a job's two trees are put in their places, and what is left is answered.
pub fn step<K: KeyKind, V: Joining>(
    nodes: &mut [Node<K, V>],
    account: Account,
    job: Job,
) -> Result<(Account, Step), OutOfOrder>
    ensures does_its_part { GoesOn (K.KeyKind) V.Joining.joined nodes.old nodes.new account job result }
{
    let first = node_at(nodes, job.into)?;
    let second = node_at(nodes, job.from)?;
    let face = face_of(first)?;
    let other = face_of(second)?;
    match meet(face, other) {
        Meeting::Apart { place } => {
            let after = part(nodes, account, job, first, place, face.key)?;
            Ok((after, Step::Done))
        }
        Meeting::Into => {
            let next = side_job(first, other.key, job)?;
            Ok((account, Step::Next(next)))
        }
        Meeting::Under => {
            let next = swap_over(nodes, job, first, second, face.key)?;
            Ok((account, Step::Next(next)))
        }
        Meeting::Level => level(nodes, account, job, first, second),
    }
}
