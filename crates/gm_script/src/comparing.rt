//! The statements of a text, compared with a book one after another.
ghost use Rattle.std.specs.Prelude.{◌≡◌, ◌++◌, ◌∷◌, ℕ, List, [], Some, map, OnOk, IfOk, IfErr, IfSome};
ghost use Rattle.gm_model.specs.Rules.{rule_of};
ghost use Rattle.gm_script.specs.inner.Comparing as comparing;
ghost use Rattle.gm_script.specs.inner.Comparing.{stat_for, stats_for};
ghost use Rattle.gm_script.specs.inner.Faults.{Compares};
ghost use Rattle.gm_script.specs.inner.Reading.{HeldStat, IsInText};
ghost use Rattle.gm_script.specs.inner.SoFar.{IsKnown};

use crate::fault::ScriptFault;
use crate::near::{NameLead, index_of_name};
use crate::reader::Draft;
use crate::rules::RulesByName;
use crate::sight::Head;
use gm_model::{MOST_LINES, RuleTable, Script};
use std::alloc::Global;
use std::marker::Model;

/// The bytes of the shortest line, `apply a`, and a blank after it.
const LEAST_LINE_BYTES: usize = 8;

/// The index, where the statement is one of the rule that has it, whose parameters' kinds then have
/// taken its values.
// Inlined, as `add` is.
#[inline(always)]
fn fit_rule(draft: &mut Draft, rule: &RuleTable, index: u16) -> Result<u16, ScriptFault>
    ensures { Compares (λ k. comparing.stat_of draft.new.head draft.new k draft.new.values) result (comparing.stat_of_rule draft.old index (Some (rule_of rule.now))) }
{
    let place = draft.place;
    if draft.hook_count() != rule.hooks.as_slice().len() {
        return Err(ScriptFault::HookCount { place });
    }
    if !draft.fit(rule.params.as_slice()) {
        return Err(ScriptFault::Params { place });
    }
    Ok(index)
}

/// The index of the rule that the statement names, and is one of.
// Inlined, as `add` is.
#[inline(always)]
fn index_of_rule(
    bytes: &[u8],
    draft: &mut Draft,
    rules: &RulesByName<'_>,
    known: &Option<NameLead>,
) -> Result<u16, ScriptFault>
    requires known { IfSome known.now (IsKnown (map rule_of rules.now)) }
    requires in_text { IsInText bytes.now draft.old.name }
    ensures { Compares (λ k. comparing.stat_of draft.new.head draft.new k draft.new.values) result (comparing.named_stat bytes.now (map rule_of rules.now) draft.old) }
{
    let name = draft.name;
    let Some(index) = index_of_name(bytes, name, rules, known) else {
        return Err(ScriptFault::UnknownRule { place: name.start });
    };
    fit_rule(draft, &rules.as_slice()[index as usize], index)
}

/// The index of the rule that the statement names, or 0 where it is one that names none.
// Inlined, as `add` is.
#[inline(always)]
fn index_for(
    bytes: &[u8],
    draft: &mut Draft,
    rules: &RulesByName<'_>,
    known: &Option<NameLead>,
) -> Result<u16, ScriptFault>
    requires known { IfSome known.now (IsKnown (map rule_of rules.now)) }
    requires in_text { IsInText bytes.now draft.old.name }
    ensures { Compares (λ k. comparing.stat_of draft.new.head draft.new k draft.new.values) result (stat_for bytes.now (map rule_of rules.now) draft.old) }
{
    match draft.head {
        Head::Apply | Head::Each => index_of_rule(bytes, draft, rules, known),
        Head::Undo | Head::Redo | Head::Group | Head::End => Ok(0),
    }
}

/// What comparing statements with a book came to so far: they themselves, or the first disagreement.
#[derive(Drop)]
pub(crate) struct Compared {
    stats: Script,
    fault: Option<ScriptFault>,
}

impl Model for Compared {
    ghost use Rattle.std.specs.Prelude.{List, Result};
    ghost use Rattle.gm_model.specs.Statements.{Stat};
    ghost use Rattle.gm_script.specs.declared.fault.ScriptFault.{ScriptFault};
    ghost use Rattle.gm_script.specs.inner.Faults.{unless};

    ghost Value = { Result (List Stat) ScriptFault };

    ghost view = { λ compared. unless compared.fault compared.stats.stats };
}

impl Compared {
    /// Nothing is compared. There is room for the lines of any text of this length.
    pub(crate) fn new(alloc: Global, length: usize) -> Result<Compared, ScriptFault>
        ensures ok { IfOk result (λ compared. compared ≡ Ok []) }
        ensures err { IfErr result (λ fault. fault ≡ ScriptFault.OutOfMemory) }
    {
        // After each line but the last stands a byte at least that parts it from the next `apply`.
        let most = (length / LEAST_LINE_BYTES + 1).min(MOST_LINES);
        Ok(Compared {
            stats: Script::with_capacity(alloc, most)?,
            fault: None,
        })
    }

    /// Compares a further statement, whose values are then made what its rule takes. After one that
    /// disagrees none is kept.
    // Inlined up to who reads a line, but for what looks a name up: that takes some 30 instructions less.
    #[inline(always)]
    pub(crate) fn add(
        &mut self,
        bytes: &[u8],
        draft: &mut Draft,
        rules: &RulesByName<'_>,
        known: &Option<NameLead>,
    ) -> Result<(), ScriptFault>
        requires known { IfSome known.now (IsKnown (map rule_of rules.now)) }
        requires in_text { IsInText bytes.now draft.old.name }
        ensures ok { (before : List HeldStat) → Compares (λ stats. stats) self.old (stats_for bytes.now (map rule_of rules.now) before)
            → OnOk result (Compares (λ stats. stats) self.new (stats_for bytes.now (map rule_of rules.now) (before ++ draft.old ∷ []))) }
        ensures err { IfErr result (λ fault. fault ≡ ScriptFault.OutOfMemory) }
    {
        if self.fault.is_some() {
            return Ok(());
        }
        match index_for(bytes, draft, rules, known) {
            Ok(index) => self.stats.push(draft.as_stat(index))?,
            Err(fault) => self.fault = Some(fault),
        }
        Ok(())
    }

    /// The statements, where none disagrees.
    pub(crate) fn finish(self) -> Result<Script, ScriptFault>
        ensures stats { IfOk result (λ script. self ≡ Ok script.stats) }
        ensures fault { IfErr result (λ fault. self ≡ Err fault) }
    {
        let Compared { stats, fault } = self;
        match fault {
            None => Ok(stats),
            Some(fault) => Err(fault),
        }
    }
}
