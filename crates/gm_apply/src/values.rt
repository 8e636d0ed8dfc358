//! The edits of an application, with the values of its result.
ghost use Rattle.std.specs.Prelude.{◌≡◌, ℕ, suc, ◌+◌, ◌<◌, List, length, MatchResult};
ghost use Rattle.gm_pending.specs.inner.Results.{instances_of};
ghost use Rattle.gm_walk.specs.inner.Room.{Fits};
ghost use Rattle.gm_apply.specs.inner.Reads.{IsReadable, HasRead, HasEdits, IsEnded};

use crate::reading::Reading;
use crate::refusal::Refusal;
use gm_arena::Steps;
use gm_commit::Changes;
use gm_eval::Kept;
use gm_model::MOST_DARTS;
use gm_pending::Pending;
use gm_walk::Scratch;
use std::alloc::Global;
use std::sync::ledger::Ledger;

impl<'a, 'm> Reading<'a, 'm> {
    /// The changes that make the result. The map is only read.
    // Inlined, so that the changes are laid out where they go.
    #[inline(always)]
    pub(crate) fn changes<L: Ledger>(
        &self,
        alloc: Global,
        scratch: &mut Scratch,
        steps: &mut Steps<L>,
    ) -> Result<Changes<'a>, Refusal>
        requires readable { (hooks : List ℕ) × IsReadable self.now hooks }
        requires fits { Fits scratch.old self.now.arena.now }
        ensures edits { (hooks : List ℕ) → IsReadable self.now hooks → MatchResult result
            (λ edits. HasEdits self.now hooks edits steps.old steps.new)
            (λ refusal. IsEnded self.now hooks refusal steps.old steps.new) }
        ensures room { scratch.new.bound ≡ scratch.old.bound }
    {
        // The arena tells here that its embeddings are few.
        prove!(self.arena.count() <= MOST_DARTS);
        let room = scratch.lend_marks(alloc);
        let mut pending = Pending::build_in(alloc, self.plan, self.arena, self.found, room, steps)?;
        for embed in 0..self.plan.schema().embeds.as_slice().len() as u8 {
            self.give_values(alloc, &mut pending, embed, scratch, steps)?;
        }
        Ok(Changes::gather(alloc, pending, scratch.lend_slots(alloc), steps)?)
    }

    /// Gives each deciding instance of the embedding the value of its expression.
    fn give_values<L: Ledger>(
        &self,
        alloc: Global,
        pending: &mut Pending<'_, '_>,
        embed: u8,
        scratch: &mut Scratch,
        steps: &mut Steps<L>,
    ) -> Result<(), Refusal>
        requires fits { Fits scratch.old self.now.arena.now }
        requires embed { embed < length self.now.arena.now.schema.embeds }
        requires read { (hooks : List ℕ) × (start : ℕ) × IsReadable self.now hooks × HasRead self.now hooks pending.old embed embed 0 start steps.old }
        ensures given { (hooks : List ℕ) (start : ℕ) → IsReadable self.now hooks → HasRead self.now hooks pending.old embed embed 0 start steps.old → MatchResult result
            (λ _. HasRead self.now hooks pending.new (embed + 1) (embed + 1) 0 start steps.new)
            (λ refusal. IsEnded self.now hooks refusal start steps.new) }
        ensures room { scratch.new.bound ≡ scratch.old.bound }
    {
        let count = pending.deciding(embed, steps)?;
        self.read_values(alloc, pending, embed, count, scratch, steps)
    }

    /// Reads the expressions of the embedding's deciding instances, in their order, and gives each its
    /// value. What is collected over an orbit that holds a node at all positions is walked once for
    /// each node whose expression collects it.
    fn read_values<L: Ledger>(
        &self,
        alloc: Global,
        pending: &mut Pending<'_, '_>,
        embed: u8,
        count: u32,
        scratch: &mut Scratch,
        steps: &mut Steps<L>,
    ) -> Result<(), Refusal>
        requires fits { Fits scratch.old self.now.arena.now }
        requires count { length (instances_of pending.old embed) ≡ count }
        requires read { (hooks : List ℕ) × (start : ℕ) × IsReadable self.now hooks × HasRead self.now hooks pending.old (suc embed) embed 0 start steps.old }
        ensures given { (hooks : List ℕ) (start : ℕ) → IsReadable self.now hooks → HasRead self.now hooks pending.old (suc embed) embed 0 start steps.old → MatchResult result
            (λ _. HasRead self.now hooks pending.new (embed + 1) (embed + 1) 0 start steps.new)
            (λ refusal. IsEnded self.now hooks refusal start steps.new) }
        ensures room { scratch.new.bound ≡ scratch.old.bound }
    {
        let collects = self.plan.collects(embed);
        let mut kept = Kept::between(alloc, count, collects)?;
        for index in 0..count {
            let (node, position) = pending.decider(embed, index);
            kept.turn_to(node);
            let Some(value) = self.value(embed, node, position, &mut kept, scratch, steps) else {
                return Err(Refusal::NoValue { embed, node });
            };
            pending.give(embed, index, value);
        }
        Ok(())
    }
}
