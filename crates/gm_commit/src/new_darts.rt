//! The values with which new darts come, gathered before anything is written.
ghost use Rattle.std.specs.Prelude.{◌≡◌, ℕ, ◌+◌, ◌*◌, ◌<◌, ◌≤◌, length, IfOk, OnOk, IsTrue};
ghost use Rattle.gm_model.specs.Rules.{is_added};
ghost use Rattle.gm_model.specs.Unfolding.{added_nodes};
ghost use Rattle.gm_commit.specs.inner.EditLists.{AreAddedValues};
ghost use Rattle.gm_commit.specs.inner.NewDartValues.{AreDecidedBelow, AreKeptValues, new_number};
ghost use Rattle.gm_pending.specs.inner.Results.{AllGiven, IsPrepared, rule_in};
ghost use Rattle.gm_pending.specs.inner.ValueSources.{AreKeepers};

use gm_arena::Steps;
use gm_model::{MOST_EMBEDS, OutOfMemory, Value};
use gm_pending::{Pending, given};
use gm_walk::At;
use std::alloc::Global;
use std::sync::ledger::Ledger;

/// The number of embeddings.
fn embeds(pending: &Pending<'_, '_>) -> u8
    ensures embeds { result ≡ length pending.now.map.schema.embeds }
    ensures prepared { IsPrepared pending.now }
{
    pending.plan().schema().embeds.as_slice().len() as u8
}

/// The values of `added` new darts, by their number and by embedding.
pub(crate) fn added_values<L: Ledger>(
    alloc: Global,
    pending: &Pending<'_, '_>,
    added: usize,
    steps: &mut Steps<L>,
) -> Result<Vec<Value>, OutOfMemory>
    requires added { added ≡ pending.now.placed.positions * added_nodes (rule_in pending.now) }
    requires given { AllGiven pending.now }
    ensures values { IfOk result (λ values. AreAddedValues pending.now added values.items) }
    ensures cost { steps.new ≤ steps.old + added * length pending.now.map.schema.embeds }
    ensures least { steps.old ≤ steps.new }
{
    let room = added.saturating_mul(embeds(pending) as usize);
    if room == 0 {
        return Ok(Vec::new(alloc));
    }
    let mut values = kept_values(alloc, pending, added, steps)?;
    for embed in 0..embeds(pending) {
        put_given_values(pending, embed, &mut values);
    }
    Ok(values)
}

/// The values that `added` new darts have in orbits without a deciding instance, by their
/// number and by embedding. Where an added node has no keeper, they may be any.
fn kept_values<L: Ledger>(
    alloc: Global,
    pending: &Pending<'_, '_>,
    added: usize,
    steps: &mut Steps<L>,
) -> Result<Vec<Value>, OutOfMemory>
    requires { added ≡ pending.now.placed.positions * added_nodes (rule_in pending.now) }
    ensures values { IfOk result (λ values. AreKeptValues pending.now added values.items) }
    ensures cost { steps.new ≤ steps.old + added * length pending.now.map.schema.embeds }
    ensures least { steps.old ≤ steps.new }
{
    let room = added.saturating_mul(embeds(pending) as usize);
    let mut values = Vec::with_capacity(alloc, room)?;
    for node in pending.left_nodes()..pending.nodes() {
        put_kept_values_of_node(pending, node, &mut values, steps)?;
    }
    Ok(values)
}

/// Puts the kept values of an added node's new darts, by position, after those of the earlier
/// ones.
fn put_kept_values_of_node<L: Ledger>(
    pending: &Pending<'_, '_>,
    node: u8,
    values: &mut Vec<Value>,
    steps: &mut Steps<L>,
) -> Result<(), OutOfMemory>
    requires added { IsTrue (is_added (rule_in pending.now) node) }
    requires earlier { AreKeptValues pending.now (new_number pending.now node 0) values.old.items }
    ensures values { OnOk result (AreKeptValues pending.now (new_number pending.now node pending.now.placed.positions) values.new.items) }
    ensures cost { steps.new ≤ steps.old + pending.now.placed.positions * length pending.now.map.schema.embeds }
    ensures least { steps.old ≤ steps.new }
{
    let keepers = keepers(pending, node);
    for position in 0..pending.positions() {
        put_kept_values_of_dart(pending, node, position, &keepers, values, steps)?;
    }
    Ok(())
}

/// Puts the kept values of a new dart, by embedding, after those of the earlier ones.
fn put_kept_values_of_dart<L: Ledger>(
    pending: &Pending<'_, '_>,
    node: u8,
    position: u32,
    keepers: &[Option<u8>; MOST_EMBEDS],
    values: &mut Vec<Value>,
    steps: &mut Steps<L>,
) -> Result<(), OutOfMemory>
    requires added { IsTrue (is_added (rule_in pending.now) node) }
    requires position { position < pending.now.placed.positions }
    requires keepers { AreKeepers pending.now node keepers.now }
    requires earlier { AreKeptValues pending.now (new_number pending.now node position) values.old.items }
    ensures values { OnOk result (AreKeptValues pending.now (new_number pending.now node position + 1) values.new.items) }
    ensures cost { steps.new ≤ steps.old + length pending.now.map.schema.embeds }
    ensures least { steps.old ≤ steps.new }
{
    for embed in 0..embeds(pending) {
        let keeper = keepers[embed as usize];
        values.push(pending.kept_value(keeper, position, embed, steps))?;
    }
    Ok(())
}

/// Puts the values of the embedding that were given, at all new darts in orbits with a deciding
/// instance.
fn put_given_values(pending: &Pending<'_, '_>, embed: u8, values: &mut [Value])
    requires embed { embed < length pending.now.map.schema.embeds }
    requires given { AllGiven pending.now }
    requires earlier { AreDecidedBelow pending.now embed values.old }
    ensures { AreDecidedBelow pending.now (embed + 1) values.new }
{
    let orbits = pending.orbits(embed);
    let width = embeds(pending) as usize;
    for entry in orbits.marks.as_slice() {
        if let At::New { node, position } = entry.at.unpack() {
            if let Some(value) = given(&orbits.instances, entry.instance) {
                let number = new_number(pending, node, position);
                values[number * width + embed as usize] = value;
            }
        }
    }
}

/// The number of an added node's new dart at a position.
fn new_number(pending: &Pending<'_, '_>, node: u8, position: u32) -> usize
    requires added { IsTrue (is_added (rule_in pending.now) node) }
    requires position { position < pending.now.placed.positions }
    ensures number { result ≡ new_number pending.now node position }
    ensures most { result < pending.now.placed.positions * added_nodes (rule_in pending.now) }
{
    let positions = pending.positions() as usize;
    (node - pending.left_nodes()) as usize * positions + position as usize
}

/// The keepers of an added node, by embedding.
fn keepers(pending: &Pending<'_, '_>, node: u8) -> [Option<u8>; MOST_EMBEDS]
    requires { IsTrue (is_added (rule_in pending.now) node) }
    ensures { AreKeepers pending.now node result }
{
    let mut keepers = [None; MOST_EMBEDS];
    for embed in 0..embeds(pending) {
        keepers[embed as usize] = pending.keeper(node, embed);
    }
    keepers
}
