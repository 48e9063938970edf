//! The queues of the candidates who remain.
ghost use Rattle.std.specs.Prelude.{◌≡◌, ◌+◌, ◌++◌, [], length, map, find, option_map, is_some, IfOk, IfNone, OnErr, ◌<◌, if◌then◌else◌};
ghost use Rattle.std.specs.Option.{option_to_list};
ghost use Rattle.std.specs.List.Sorted.{IsStrictlyIncreasing};
ghost use Rattle.admit_core.specs.CallOrder.{may_be_called};
ghost use Rattle.call_order.specs.Kinds.{head_of, without_head};

use crate::heads::{Heads, first_heads};
use crate::kind::Kind;
use admit_core::{Bound, OutOfMemory, Ranked, Steps};
use std::alloc::Global;
use std::marker::Model;
use std::sync::ledger::Ledger;

/// Candidates who wait by rank, in one queue for each kind, and the ids of those who were taken.
#[derive(Drop)]
pub struct Queues {
    list: Vec<Ranked>,
    heads: Heads,
    taken: Vec<u32>,
}

impl Model for Queues {
    ghost use Rattle.std.specs.Prelude.{vec_len, vec_capacity};
    ghost use Rattle.call_order.specs.Heads.{remaining_of, AreHeads};
    ghost use Rattle.call_order.specs.QueueLists.{QueueLists};

    ghost Value = { QueueLists };

    ghost view = { λ q. record {
      remaining = remaining_of q.heads q.list.items;
      taken = q.taken.items;
    } };

    ghost invariant = { λ q. AreHeads q.heads q.list.items (vec_len q.taken)
        (vec_capacity q.taken) };
}

/// The same candidates again. It lacks memory only where there is one.
fn copied(alloc: Global, list: &[Ranked]) -> Result<Vec<Ranked>, OutOfMemory>
    ensures same { IfOk result (λ v. v.items ≡ list.now) }
    ensures memory { OnErr result (0 < length list.now) }
{
    if list.is_empty() {
        return Ok(Vec::new(alloc));
    }
    Ok(Vec::from_slice(alloc, list)?)
}

impl Queues {
    /// The queues of a ranking. All the room that the other calls need is made here.
    pub fn build(alloc: Global, list: &[Ranked]) -> Result<Queues, OutOfMemory>
        requires { IsStrictlyIncreasing (map (λ r. r.rank) list.now) }
        ensures remaining { IfOk result (λ queues. queues.remaining ≡ list.now) }
        ensures taken { IfOk result (λ queues. queues.taken ≡ []) }
        ensures memory { OnErr result (0 < length list.now) }
    {
        let heads = first_heads(list);
        let taken = Vec::with_capacity(alloc, list.len())?;
        let list = copied(alloc, list)?;
        Ok(Queues { list, heads, taken })
    }

    /// How many remain.
    pub fn remaining(&self) -> usize
        ensures count { result ≡ length self.now.remaining }
        ensures ranks { IsStrictlyIncreasing (map (λ r. r.rank) self.now.remaining) }
    {
        self.list.len() - self.taken.len()
    }

    /// The head of a kind's queue, the one of least rank. `None` where the queue is empty.
    pub fn peek(&self, kind: Kind) -> Option<Ranked>
        ensures { result ≡ head_of kind self.now.remaining }
    {
        self.list.get(self.heads.place(kind)).copied()
    }

    /// The one of least rank whom a bound lets be called. Ranks ascend along the list, so it is the
    /// head at the first place. `None` where nobody may be called.
    pub(crate) fn first_eligible(&self, bound: Bound) -> Option<Ranked>
        ensures { result ≡ find (may_be_called bound) self.now.remaining }
    {
        self.list.get(self.heads.first(bound)).copied()
    }

    /// Takes the head of a kind's queue, in one step. `None` where the queue is empty.
    pub fn pop<L: Ledger>(&mut self, kind: Kind, steps: &mut Steps<L>) -> Option<Ranked>
        ensures head { result ≡ head_of kind self.old.remaining }
        ensures remaining { self.new.remaining ≡ without_head kind self.old.remaining }
        ensures taken { self.new.taken ≡ self.old.taken
            ++ option_to_list (option_map (λ r. r.candidate) result) }
        ensures steps { steps.new ≡ steps.old + (if is_some result then 1 else 0) }

        ensures empty { IfNone result (self.new ≡ self.old) }
        ensures ranks { IsStrictlyIncreasing (map (λ r. r.rank) self.new.remaining) }
    {
        let head = self.peek(kind)?;
        let next = kind.next_place(&self.list, self.heads.place(kind));
        self.heads.move_to(kind, next);
        self.taken.push_reserved(head.candidate);
        steps.tick();
        Some(head)
    }
}
