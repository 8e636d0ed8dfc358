//! The command `book`, and the book and the plans that other commands read.

ghost use Rattle.std.specs.Prelude.{◌≡◌, All, IfOk, IfErr, map};
ghost use Rattle.gm_model.specs.Acceptance.{IsAccepted};
ghost use Rattle.gm_model.specs.Maps.{IsSchema};
ghost use Rattle.gm_model.specs.Rules.{rule_of};
ghost use Rattle.gm_plan.specs.inner.Plans.{plan_of};
ghost use Rattle.gm_tool.specs.Answer as answer;
ghost use Rattle.gm_lines.specs.Refusing.{TheBook};
ghost use Rattle.gm_tool.specs.inner.Books.{IsCheckable, IsRuleStop};
ghost use Rattle.gm_tool.specs.inner.Replies.{IsJudged, IsBookRefusal};
ghost use Rattle.gm_tool.specs.RunAnswer.{IsBadBookText, IsFirstRefused};
ghost use Rattle.gm_tool.specs.inner.Stops.{IsReadBook, IsBadFor};

use crate::refusal::{NoText, Stop};
use crate::reply::{Reply, reply_within_limit};
use gm_book::{BookFault, print_book, read_book};
use gm_lines::{book_line, refused_rule_line};
use gm_model::{Book, RuleTable, Schema};
use gm_plan::{Plan, PlanFault, compile};
use std::alloc::Global;

/// The canonical text of the book that a file's text stands for, or the line that refuses it.
pub fn show(alloc: Global, bytes: &[u8]) -> Result<Reply, NoText>
    ensures { IsJudged bytes.now answer.Book result }
{
    match read_book(alloc, bytes) {
        Ok(book) => {
            let text = print_book(alloc, &book)?;
            reply_within_limit(0, text)
        }
        Err(fault) => refused(alloc, fault),
    }
}

/// The line that says why a file's text stands for no book.
pub fn refused(alloc: Global, fault: BookFault) -> Result<Reply, NoText>
    ensures { IsBookRefusal fault result }
{
    let text = book_line(alloc, fault)?;
    Ok(Reply { status: 4, text })
}

/// The book that a file's text stands for, or the line that refuses it.
pub fn read(alloc: Global, bytes: &[u8]) -> Result<Book, Stop>
    ensures book { IfOk result (IsReadBook bytes.now) }
    ensures declared { IfOk result (λ book. IsSchema book.schema) }
    ensures stop { IfErr result (IsBadFor TheBook (IsBadBookText bytes.now)) }
{
    match read_book(alloc, bytes) {
        Ok(book) => Ok(book),
        Err(fault) => Err(Stop::because(book_line(alloc, fault))),
    }
}

/// The plans of the rules of the book, in order, or the line that refuses the book for its first
/// rule that isn't accepted.
pub fn plans_of<'b>(alloc: Global, book: &'b Book) -> Result<Vec<Plan<'b>>, Stop>
    requires { All (λ rule. IsCheckable book.now.schema (rule_of rule)) book.now.rules }
    ensures plans { IfOk result (λ plans. plans.items ≡ map (plan_of book.now.schema) book.now.rules) }
    ensures accepted { IfOk result (λ _. All (IsAccepted book.now.schema) (map rule_of book.now.rules)) }
    ensures stop { IfErr result (IsBadFor TheBook (IsFirstRefused book.now.schema (map rule_of book.now.rules))) }
{
    let mut plans = Vec::new(alloc);
    for rule in book.rules.as_slice() {
        plans.push(plan_for(alloc, &book.schema, rule)?)?;
    }
    Ok(plans)
}

fn plan_for<'b>(alloc: Global, schema: &'b Schema, rule: &'b RuleTable) -> Result<Plan<'b>, Stop>
    requires { IsCheckable schema.now (rule_of rule.now) }
    ensures plan { IfOk result (λ plan. plan ≡ plan_of schema.now rule.now) }
    ensures accepted { IfOk result (λ _. IsAccepted schema.now (rule_of rule.now)) }
    ensures stop { IfErr result (IsRuleStop schema.now (rule_of rule.now)) }
{
    match compile(alloc, schema, rule) {
        Ok(plan) => Ok(plan),
        Err(PlanFault::Rule(fault)) => {
            Err(Stop::because(refused_rule_line(alloc, schema, rule, fault)))
        }
        Err(PlanFault::OutOfMemory) => Err(Stop::NoText(NoText::OutOfMemory)),
    }
}
