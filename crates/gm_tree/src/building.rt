//! The tree of an expression put together, one token after another.
ghost use Rattle.std.specs.Prelude.{◌≡◌, [], None, if◌then◌else◌, IfOk};
ghost use Rattle.std.specs.Option.{option_map};
ghost use Rattle.gm_model.specs.Trees.{tree_of};
ghost use Rattle.gm_parse.specs.Levels.{binary_level};
ghost use Rattle.gm_parse.specs.Meaning.{fault_place, fault_rank, UnknownAt, TwiceAt};
ghost use Rattle.gm_tree.specs.inner.Building as building;
ghost use Rattle.gm_tree.specs.inner.Building.{before_operator, behind_value, close_bracket, close_held, earlier, frames_of, held, misfitted, name_fault, next_frames, next_held, reduced, settled, work, work_of, Value};

use crate::builder::Builder;
use crate::calls::{close, enclose, go_on, misfit};
use crate::partial::Partial;
use crate::stack::{put, take, take_above, take_shut};
use crate::waiting::Waiting;
use gm_model::{BinOp, Expr, OutOfMemory};
use gm_parse::{ExprFault, Key, binary_level};
use std::alloc::Global;

fn place_of(fault: ExprFault) -> usize
    ensures { result ≡ fault_place (name_fault fault) }
{
    match fault {
        ExprFault::Unknown { place } | ExprFault::Twice { place } => place,
        ExprFault::OutOfMemory => 0,
    }
}

/// The order in which faults at one place count.
fn rank_of(fault: ExprFault) -> u8
    ensures { result ≡ fault_rank (name_fault fault) }
{
    match fault {
        ExprFault::Twice { .. } => 0,
        ExprFault::Unknown { .. } | ExprFault::OutOfMemory => 1,
    }
}

fn is_before(fault: ExprFault, other: ExprFault) -> bool
    ensures { result ≡ building.is_before (name_fault fault) (name_fault other) }
{
    place_of(fault) < place_of(other)
        || place_of(fault) == place_of(other) && rank_of(fault) < rank_of(other)
}

impl Builder {
    pub(crate) fn new(alloc: Global) -> Builder
        ensures waiting { frames_of result.waiting.items ≡ [] }
        ensures least { result.least ≡ None }
    {
        Builder {
            waiting: Vec::new(alloc),
            least: None,
        }
    }

    /// Of two faults the one at the lesser place counts, and at one place a label that is mentioned
    /// again.
    fn note(&mut self, fault: ExprFault)
        ensures least { option_map name_fault self.new.least ≡ earlier (option_map name_fault self.old.least) (name_fault fault) }
        ensures waiting { self.new.waiting ≡ self.old.waiting }
    {
        match self.least {
            Some(least) if !is_before(fault, least) => {}
            _ => self.least = Some(fault),
        }
    }

    /// Ends what waits for the operand and binds more closely than the level.
    fn reduce(&mut self, alloc: Global, level: u8, operand: Expr) -> Result<Expr, OutOfMemory>
        ensures held { IfOk result (λ e. held (frames_of self.new.waiting.items) (tree_of e) ≡ reduced level (frames_of self.old.waiting.items) (tree_of operand)) }
        ensures least { self.new.least ≡ self.old.least }
    {
        let mut operand = operand;
        while let Some(waiting) = take_above(&mut self.waiting, level) {
            operand = close(alloc, waiting, operand)?;
        }
        Ok(operand)
    }

    /// Ends what waits for the operand, up to the innermost bracket.
    pub(crate) fn settle(&mut self, alloc: Global, operand: Expr) -> Result<Expr, OutOfMemory>
        ensures held { IfOk result (λ e. held (frames_of self.new.waiting.items) (tree_of e) ≡ settled (frames_of self.old.waiting.items) (tree_of operand)) }
        ensures least { self.new.least ≡ self.old.least }
    {
        let mut operand = operand;
        while let Some(waiting) = take_shut(&mut self.waiting) {
            operand = close(alloc, waiting, operand)?;
        }
        Ok(operand)
    }

    /// Where nothing was found for the name at the place, that is a fault.
    pub(crate) fn expect(&mut self, is_found: bool, place: usize)
        ensures least { option_map name_fault self.new.least ≡ (if is_found then option_map name_fault self.old.least else earlier (option_map name_fault self.old.least) (UnknownAt place)) }
        ensures waiting { self.new.waiting ≡ self.old.waiting }
    {
        if !is_found {
            self.note(ExprFault::Unknown { place });
        }
    }

    /// The label at the place of an orbit, where it was mentioned before, is a fault.
    pub(crate) fn expect_once(&mut self, is_again: bool, place: usize)
        ensures least { option_map name_fault self.new.least ≡ (if is_again then earlier (option_map name_fault self.old.least) (TwiceAt place) else option_map name_fault self.old.least) }
        ensures waiting { self.new.waiting ≡ self.old.waiting }
    {
        if is_again {
            self.note(ExprFault::Twice { place });
        }
    }

    /// The function at the place doesn't take its arguments.
    fn expect_fit(&mut self, misfit: Option<usize>)
        ensures least { option_map name_fault self.new.least ≡ misfitted (option_map name_fault self.old.least) misfit }
        ensures waiting { self.new.waiting ≡ self.old.waiting }
    {
        if let Some(place) = misfit {
            self.note(ExprFault::Unknown { place });
        }
    }

    /// The innermost bracket closes after the operand.
    fn close_bracket(&mut self, alloc: Global, operand: Expr) -> Result<Expr, OutOfMemory>
        ensures { IfOk result (λ e. work (frames_of self.new.waiting.items) (option_map name_fault self.new.least) (Value (tree_of e)) ≡ close_bracket (frames_of self.old.waiting.items) (option_map name_fault self.old.least) (tree_of operand)) }
    {
        match take(&mut self.waiting) {
            Some(waiting) => {
                self.expect_fit(misfit(&waiting));
                enclose(alloc, waiting, operand)
            }
            None => Ok(operand),
        }
    }

    /// The next part of the innermost bracket begins after the operand.
    fn part_bracket(&mut self, key: Key, operand: Expr) -> Result<(), OutOfMemory>
        ensures frames { IfOk result (λ _. frames_of self.new.waiting.items ≡ next_frames key (frames_of self.old.waiting.items) (tree_of operand)) }
        ensures least { self.new.least ≡ self.old.least }
    {
        match take(&mut self.waiting) {
            Some(waiting) => put(&mut self.waiting, go_on(key, waiting, operand)),
            None => {
                drop(operand);
                Ok(())
            }
        }
    }

    fn operate(&mut self, alloc: Global, op: BinOp, operand: Expr) -> Result<(), OutOfMemory>
        ensures frames { IfOk result (λ _. frames_of self.new.waiting.items ≡ before_operator op (reduced (binary_level op) (frames_of self.old.waiting.items) (tree_of operand))) }
        ensures least { self.new.least ≡ self.old.least }
    {
        let left = self.reduce(alloc, binary_level(op), operand)?;
        put(&mut self.waiting, Waiting::Left(op, left))
    }

    fn close(&mut self, alloc: Global, operand: Expr) -> Result<Expr, OutOfMemory>
        ensures { IfOk result (λ e. work (frames_of self.new.waiting.items) (option_map name_fault self.new.least) (Value (tree_of e)) ≡ close_held (option_map name_fault self.old.least) (settled (frames_of self.old.waiting.items) (tree_of operand))) }
    {
        let operand = self.settle(alloc, operand)?;
        self.close_bracket(alloc, operand)
    }

    fn part(&mut self, alloc: Global, key: Key, operand: Expr) -> Result<(), OutOfMemory>
        ensures frames { IfOk result (λ _. frames_of self.new.waiting.items ≡ next_held key (settled (frames_of self.old.waiting.items) (tree_of operand))) }
        ensures least { self.new.least ≡ self.old.least }
    {
        let operand = self.settle(alloc, operand)?;
        self.part_bracket(key, operand)
    }

    /// Goes on after a whole operand.
    pub(crate) fn go_behind(
        &mut self,
        alloc: Global,
        operand: Expr,
        key: Key,
    ) -> Result<Partial, OutOfMemory>
        ensures { IfOk result (λ partial. work_of self.new partial ≡ behind_value (frames_of self.old.waiting.items) (option_map name_fault self.old.least) (tree_of operand) key) }
    {
        match key {
            Key::Operator(op) => {
                self.operate(alloc, op, operand)?;
                Ok(Partial::Nothing)
            }
            Key::Close => {
                let value = self.close(alloc, operand)?;
                Ok(Partial::Value(value))
            }
            Key::Comma | Key::Then | Key::Else => {
                self.part(alloc, key, operand)?;
                Ok(Partial::Nothing)
            }
            _ => Ok(Partial::Value(operand)),
        }
    }
}
