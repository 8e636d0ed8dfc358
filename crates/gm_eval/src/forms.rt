//! The value of an expression, form by form, down its tree.

ghost use Rattle.std.specs.Prelude.{◌≡◌, ◌≢◌, ◌⊎◌, ℕ, ℤ, Bool, [], ◌∷◌, IfSome, IsSome, IsTrue, MatchOption, None, Some};
ghost use Rattle.gm_model.specs.Expressions.{IsMade};
ghost use Rattle.gm_model.specs.Trees.{Count, Sum, Unary, Binary, If, MakeVec2, MakeVec3, tree_of};
ghost use Rattle.gm_model.specs.declared.expr.BinOp.TheVariants.{Add, Sub, Div};
ghost use Rattle.gm_model.specs.declared.expr.DartTerm.{DartTerm as TermOf};
ghost use Rattle.gm_model.specs.declared.expr.Expr.TheVariants.{Int as IntOf, Param as ParamOf, Field as FieldOf};
ghost use Rattle.gm_model.specs.declared.value.Kind.TheVariants.{Vec3, Rgb};
ghost use Rattle.gm_model.specs.declared.value.Value.TheVariants.{Int, Bool as Truth};
ghost use Rattle.gm_walk.specs.inner.Room.{Fits};
ghost use Rattle.gm_eval.specs.inner.Keeping.{AreKept};
ghost use Rattle.gm_eval.specs.inner.Made.{IsNone};
ghost use Rattle.gm_eval.specs.inner.Places.{IsWithinUnits};
ghost use Rattle.gm_eval.specs.inner.Readers.{AreNumbersThere, AreValuesThere, IsRead, IsReady, IsValueThere, reading_of};

use crate::kept::{Entries, Form};
use crate::numbers::{rgb, vec2, vec3};
use crate::operators::{binary, is_most_met, most_met, unary};
use crate::reader::Reader;
use gm_arena::Steps;
use gm_model::{BinOp, DartTerm, Expr, Mask, UnOp, Value};
use gm_walk::Scratch;
use std::sync::ledger::Ledger;

impl Reader<'_> {
    /// The value of the expression; none where it has none.
    // It is inlined where a part is read, and the forms that have parts aren't: so a number, a parameter
    // or a field takes no call and no frame.
    #[cycle(value)]
    #[inline(always)]
    pub(crate) fn value<L: Ledger>(
        &self,
        expr: &Expr,
        kept: &mut Entries,
        scratch: &mut Scratch,
        steps: &mut Steps<L>,
    ) -> Option<Value>
        requires ready { IsReady self.now (tree_of expr.now) }
        requires fits { Fits scratch.old self.now.arena.now }
        requires kept { AreKept self.now.arena.now self.now.found.now self.now.params.now kept.old }
        ensures value { IsValueThere self.now (tree_of expr.now) result }
        ensures read { IsRead self.now (tree_of expr.now) (IsSome result) kept.old kept.new steps.old steps.new scratch.old.bound scratch.new.bound }
    {
        match expr {
            Expr::Int(number) => Some(Value::Int(*number)),
            Expr::Param(at) => Some(self.params[*at as usize]),
            Expr::Field(term, embed) => Some(self.field(term, *embed, steps)),
            _ => self.composed(expr, kept, scratch, steps),
        }
    }

    /// The value of an expression that is more than a number, a parameter or a field.
    // It is a function, so that what the calls in it write to is cleared only where one is made.
    #[cycle(value)]
    #[inline(always)]
    fn composed<L: Ledger>(
        &self,
        expr: &Expr,
        kept: &mut Entries,
        scratch: &mut Scratch,
        steps: &mut Steps<L>,
    ) -> Option<Value>
        requires ready { IsReady self.now (tree_of expr.now) }
        requires int { (x : ℤ) → expr.now ≢ IntOf x }
        requires param { (k : ℕ) → expr.now ≢ ParamOf k }
        requires field { (d : TermOf) (e : ℕ) → expr.now ≢ FieldOf d e }
        requires fits { Fits scratch.old self.now.arena.now }
        requires kept { AreKept self.now.arena.now self.now.found.now self.now.params.now kept.old }
        ensures value { IsValueThere self.now (tree_of expr.now) result }
        ensures read { IsRead self.now (tree_of expr.now) (IsSome result) kept.old kept.new steps.old steps.new scratch.old.bound scratch.new.bound }
    {
        match expr {
            Expr::Bool(truth) => Some(Value::Bool(*truth)),
            Expr::Same(term, other) => Some(Value::Bool(self.same(term, other, steps))),
            Expr::Count(mask, term) => {
                self.collected(Form::Count, *mask, term, 0, kept, scratch, steps)
            }
            Expr::Sum(mask, term, embed) => {
                self.collected(Form::Sum, *mask, term, *embed, kept, scratch, steps)
            }
            Expr::Least(mask, term, embed) => {
                self.collected(Form::Least, *mask, term, *embed, kept, scratch, steps)
            }
            Expr::Greatest(mask, term, embed) => {
                self.collected(Form::Greatest, *mask, term, *embed, kept, scratch, steps)
            }
            Expr::Unary(op, part) => self.unary(*op, part, kept, scratch, steps),
            Expr::Binary(op, left, right) if is_quick(*op, left) => {
                self.quick(*op, left, right, kept, scratch, steps)
            }
            Expr::Binary(op, left, right) => self.binary(*op, left, right, kept, scratch, steps),
            Expr::If(condition, chosen, other) => {
                self.choice(condition, chosen, other, kept, scratch, steps)
            }
            Expr::MakeVec2(x, y) => self.pair(x, y, kept, scratch, steps),
            Expr::MakeVec3(x, y, z) => triple(self.numbers(x, y, z, kept, scratch, steps)),
            Expr::MakeRgb(red, green, blue) => {
                colour(self.numbers(red, green, blue, kept, scratch, steps))
            }
            Expr::Int(_) | Expr::Param(_) | Expr::Field(_, _) => unreachable!(),
        }
    }

    /// The value of an operator of one part.
    #[cycle(value)]
    #[inline(never)]
    fn unary<L: Ledger>(
        &self,
        op: UnOp,
        part: &Expr,
        kept: &mut Entries,
        scratch: &mut Scratch,
        steps: &mut Steps<L>,
    ) -> Option<Value>
        requires ready { IsReady self.now (Unary op (tree_of part.now)) }
        requires fits { Fits scratch.old self.now.arena.now }
        requires kept { AreKept self.now.arena.now self.now.found.now self.now.params.now kept.old }
        ensures value { IsValueThere self.now (Unary op (tree_of part.now)) result }
        ensures read { IsRead self.now (Unary op (tree_of part.now)) (IsSome result) kept.old kept.new steps.old steps.new scratch.old.bound scratch.new.bound }
    {
        let part = self.value(part, kept, scratch, steps)?;
        unary(op, part)
    }

    /// The value of an operator that rules have most. Both parts are read.
    #[cycle(value)]
    #[inline(never)]
    fn quick<L: Ledger>(
        &self,
        op: BinOp,
        left: &Expr,
        right: &Expr,
        kept: &mut Entries,
        scratch: &mut Scratch,
        steps: &mut Steps<L>,
    ) -> Option<Value>
        requires ready { IsReady self.now (Binary op (tree_of left.now) (tree_of right.now)) }
        requires op { (op ≡ Add) ⊎ (op ≡ Sub) ⊎ (op ≡ Div) }
        requires fits { Fits scratch.old self.now.arena.now }
        requires kept { AreKept self.now.arena.now self.now.found.now self.now.params.now kept.old }
        ensures value { IsValueThere self.now (Binary op (tree_of left.now) (tree_of right.now)) result }
        ensures read { IsRead self.now (Binary op (tree_of left.now) (tree_of right.now)) (IsSome result) kept.old kept.new steps.old steps.new scratch.old.bound scratch.new.bound }
    {
        let left = self.first_part(left, kept, scratch, steps)?;
        let right = self.value(right, kept, scratch, steps)?;
        most_met(op, left, right)
    }

    /// The value of the first part of an operator that rules have most.
    // Where it has such an operator too, that is inlined: so `(a.pos + b.pos) / 2` is read in one call.
    #[cycle(value)]
    #[inline(always)]
    fn first_part<L: Ledger>(
        &self,
        expr: &Expr,
        kept: &mut Entries,
        scratch: &mut Scratch,
        steps: &mut Steps<L>,
    ) -> Option<Value>
        requires ready { IsReady self.now (tree_of expr.now) }
        requires fits { Fits scratch.old self.now.arena.now }
        requires kept { AreKept self.now.arena.now self.now.found.now self.now.params.now kept.old }
        ensures value { IsValueThere self.now (tree_of expr.now) result }
        ensures read { IsRead self.now (tree_of expr.now) (IsSome result) kept.old kept.new steps.old steps.new scratch.old.bound scratch.new.bound }
    {
        match expr {
            Expr::Binary(op, left, right) if is_quick(*op, left) => {
                self.nested(*op, left, right, kept, scratch, steps)
            }
            _ => self.value(expr, kept, scratch, steps),
        }
    }

    /// The value of an operator that rules have most, as the first part of another.
    #[cycle(value)]
    #[inline(always)]
    fn nested<L: Ledger>(
        &self,
        op: BinOp,
        left: &Expr,
        right: &Expr,
        kept: &mut Entries,
        scratch: &mut Scratch,
        steps: &mut Steps<L>,
    ) -> Option<Value>
        requires ready { IsReady self.now (Binary op (tree_of left.now) (tree_of right.now)) }
        requires op { (op ≡ Add) ⊎ (op ≡ Sub) ⊎ (op ≡ Div) }
        requires fits { Fits scratch.old self.now.arena.now }
        requires kept { AreKept self.now.arena.now self.now.found.now self.now.params.now kept.old }
        ensures value { IsValueThere self.now (Binary op (tree_of left.now) (tree_of right.now)) result }
        ensures read { IsRead self.now (Binary op (tree_of left.now) (tree_of right.now)) (IsSome result) kept.old kept.new steps.old steps.new scratch.old.bound scratch.new.bound }
    {
        let (left, right) = self.parts(left, right, kept, scratch, steps)?;
        most_met(op, left, right)
    }

    /// The value of an operator of two parts. Both are read.
    #[cycle(value)]
    #[inline(never)]
    fn binary<L: Ledger>(
        &self,
        op: BinOp,
        left: &Expr,
        right: &Expr,
        kept: &mut Entries,
        scratch: &mut Scratch,
        steps: &mut Steps<L>,
    ) -> Option<Value>
        requires ready { IsReady self.now (Binary op (tree_of left.now) (tree_of right.now)) }
        requires fits { Fits scratch.old self.now.arena.now }
        requires kept { AreKept self.now.arena.now self.now.found.now self.now.params.now kept.old }
        ensures value { IsValueThere self.now (Binary op (tree_of left.now) (tree_of right.now)) result }
        ensures read { IsRead self.now (Binary op (tree_of left.now) (tree_of right.now)) (IsSome result) kept.old kept.new steps.old steps.new scratch.old.bound scratch.new.bound }
    {
        if let Some((mask, term, embed)) = parts_of_mean(left, right) {
            return self.of_mean(op, mask, term, embed, kept, scratch, steps);
        }
        let (left, right) = self.parts(left, right, kept, scratch, steps)?;
        binary(op, left, right)
    }

    /// The values of two expressions; none where one of them has none. Both are read.
    #[cycle(value)]
    #[inline(always)]
    fn parts<L: Ledger>(
        &self,
        first: &Expr,
        second: &Expr,
        kept: &mut Entries,
        scratch: &mut Scratch,
        steps: &mut Steps<L>,
    ) -> Option<(Value, Value)>
        requires first { IsReady self.now (tree_of first.now) }
        requires second { IsReady self.now (tree_of second.now) }
        requires fits { Fits scratch.old self.now.arena.now }
        requires kept { AreKept self.now.arena.now self.now.found.now self.now.params.now kept.old }
        ensures value { AreValuesThere self.now (tree_of first.now) (tree_of second.now) result }
        ensures read { IsRead self.now (MakeVec2 (tree_of first.now) (tree_of second.now)) (IsSome result) kept.old kept.new steps.old steps.new scratch.old.bound scratch.new.bound }
    {
        let first = self.value(first, kept, scratch, steps)?;
        let second = self.value(second, kept, scratch, steps)?;
        Some((first, second))
    }

    /// The value of an operator of a sum and of the number of the darts that are summed over, as of a
    /// mean. The orbit is walked once.
    fn of_mean<L: Ledger>(
        &self,
        op: BinOp,
        mask: Mask,
        term: &DartTerm,
        embed: u8,
        kept: &mut Entries,
        scratch: &mut Scratch,
        steps: &mut Steps<L>,
    ) -> Option<Value>
        requires ready { IsReady self.now (Binary op (Sum mask term.now embed) (Count mask term.now)) }
        requires fits { Fits scratch.old self.now.arena.now }
        requires kept { AreKept self.now.arena.now self.now.found.now self.now.params.now kept.old }
        ensures value { IsValueThere self.now (Binary op (Sum mask term.now embed) (Count mask term.now)) result }
        ensures read { IsRead self.now (Binary op (Sum mask term.now embed) (Count mask term.now)) (IsSome result) kept.old kept.new steps.old steps.new scratch.old.bound scratch.new.bound }
        ensures once { IsWithinUnits (reading_of self.now) (Sum mask term.now embed) steps.old steps.new }
    {
        let (sum, count) = self.mean_parts(mask, term, embed, kept, scratch, steps);
        let Some(sum) = sum else { return None };
        let Some(count) = count else { return None };
        binary(op, sum, count)
    }

    /// The value of the part that the condition chooses. The other is not read.
    #[cycle(value)]
    #[inline(never)]
    fn choice<L: Ledger>(
        &self,
        condition: &Expr,
        chosen: &Expr,
        other: &Expr,
        kept: &mut Entries,
        scratch: &mut Scratch,
        steps: &mut Steps<L>,
    ) -> Option<Value>
        requires ready { IsReady self.now (If (tree_of condition.now) (tree_of chosen.now) (tree_of other.now)) }
        requires fits { Fits scratch.old self.now.arena.now }
        requires kept { AreKept self.now.arena.now self.now.found.now self.now.params.now kept.old }
        ensures value { IsValueThere self.now (If (tree_of condition.now) (tree_of chosen.now) (tree_of other.now)) result }
        ensures read { IsRead self.now (If (tree_of condition.now) (tree_of chosen.now) (tree_of other.now)) (IsSome result) kept.old kept.new steps.old steps.new scratch.old.bound scratch.new.bound }
    {
        if truth(self.value(condition, kept, scratch, steps))? {
            self.value(chosen, kept, scratch, steps)
        } else {
            self.value(other, kept, scratch, steps)
        }
    }

    /// The vector of two numbers.
    #[cycle(value)]
    #[inline(never)]
    fn pair<L: Ledger>(
        &self,
        x: &Expr,
        y: &Expr,
        kept: &mut Entries,
        scratch: &mut Scratch,
        steps: &mut Steps<L>,
    ) -> Option<Value>
        requires ready { IsReady self.now (MakeVec2 (tree_of x.now) (tree_of y.now)) }
        requires fits { Fits scratch.old self.now.arena.now }
        requires kept { AreKept self.now.arena.now self.now.found.now self.now.params.now kept.old }
        ensures value { IsValueThere self.now (MakeVec2 (tree_of x.now) (tree_of y.now)) result }
        ensures read { IsRead self.now (MakeVec2 (tree_of x.now) (tree_of y.now)) (IsSome result) kept.old kept.new steps.old steps.new scratch.old.bound scratch.new.bound }
    {
        let x = number(self.value(x, kept, scratch, steps))?;
        let y = number(self.value(y, kept, scratch, steps))?;
        vec2(x as i128, y as i128)
    }

    /// The numbers that three expressions are; none where one of them is none.
    #[cycle(value)]
    #[inline(never)]
    fn numbers<L: Ledger>(
        &self,
        x: &Expr,
        y: &Expr,
        z: &Expr,
        kept: &mut Entries,
        scratch: &mut Scratch,
        steps: &mut Steps<L>,
    ) -> Option<(i64, i64, i64)>
        requires x { IsReady self.now (tree_of x.now) }
        requires y { IsReady self.now (tree_of y.now) }
        requires z { IsReady self.now (tree_of z.now) }
        requires fits { Fits scratch.old self.now.arena.now }
        requires kept { AreKept self.now.arena.now self.now.found.now self.now.params.now kept.old }
        ensures value { AreNumbersThere self.now (tree_of x.now) (tree_of y.now) (tree_of z.now) result }
        ensures read { IsRead self.now (MakeVec3 (tree_of x.now) (tree_of y.now) (tree_of z.now)) (IsSome result) kept.old kept.new steps.old steps.new scratch.old.bound scratch.new.bound }
    {
        let x = number(self.value(x, kept, scratch, steps))?;
        let y = number(self.value(y, kept, scratch, steps))?;
        let z = number(self.value(z, kept, scratch, steps))?;
        Some((x, y, z))
    }
}

/// The number that the value is; none where it is none.
fn number(value: Option<Value>) -> Option<i64>
    ensures { MatchOption result ((x : ℤ) → value ≡ Some (Int x) → ⊥) (λ x. value ≡ Some (Int x)) }
{
    match value? {
        Value::Int(number) => Some(number),
        _ => None,
    }
}

/// The truth that the value is; none where it is none.
fn truth(value: Option<Value>) -> Option<bool>
    ensures { MatchOption result ((b : Bool) → value ≡ Some (Truth b) → ⊥) (λ b. value ≡ Some (Truth b)) }
{
    match value? {
        Value::Bool(truth) => Some(truth),
        _ => None,
    }
}

/// The vector of three numbers; none where they are none.
fn triple(numbers: Option<(i64, i64, i64)>) -> Option<Value>
    ensures { MatchOption numbers (result ≡ None) (λ xs. MatchOption result
        (IsNone (IsMade Vec3 (xs.0 ∷ xs.1 ∷ xs.2 ∷ [])))
        (IsMade Vec3 (xs.0 ∷ xs.1 ∷ xs.2 ∷ []))) }
{
    let (x, y, z) = numbers?;
    vec3(x as i128, y as i128, z as i128)
}

/// The colour of three numbers; none where they are none.
fn colour(numbers: Option<(i64, i64, i64)>) -> Option<Value>
    ensures { MatchOption numbers (result ≡ None) (λ xs. MatchOption result
        (IsNone (IsMade Rgb (xs.0 ∷ xs.1 ∷ xs.2 ∷ [])))
        (IsMade Rgb (xs.0 ∷ xs.1 ∷ xs.2 ∷ []))) }
{
    let (red, green, blue) = numbers?;
    rgb(red, green, blue)
}

/// The orbit of a sum and of the number of its darts, and the embedding that is summed, where the two
/// parts are these, as they are in a mean.
fn parts_of_mean<'e>(left: &'e Expr, right: &'e Expr) -> Option<(Mask, &'e DartTerm, u8)>
    ensures { IfSome result (λ mean. (tree_of left.now ≡ Sum mean.0 mean.1.now mean.2) × (tree_of right.now ≡ Count mean.0 mean.1.now)) }
{
    let (Expr::Sum(mask, term, embed), Expr::Count(other, same)) = (left, right) else {
        return None;
    };
    if mask.bits != other.bits || !is_same(term, same) {
        return None;
    }
    Some((*mask, term, *embed))
}

/// Whether the operator is one that rules have most, and its first part no sum, as it is in a mean.
#[inline(always)]
fn is_quick(op: BinOp, left: &Expr) -> bool
    ensures { IsTrue result → (op ≡ Add) ⊎ (op ≡ Sub) ⊎ (op ≡ Div) }
{
    is_most_met(op) && !matches!(left, Expr::Sum(_, _, _))
}

/// Whether both terms are the same.
fn is_same(term: &DartTerm, other: &DartTerm) -> bool
    ensures { IsTrue result → term.now ≡ other.now }
{
    term.node == other.node && term.path.as_slice() == other.path.as_slice()
}
