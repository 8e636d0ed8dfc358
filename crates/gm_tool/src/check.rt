//! The command `check`.

ghost use Rattle.std.specs.Prelude.{◌≡◌, ◌++◌, All, IfOk, OnOk, MatchResult, map};
ghost use Rattle.gm_model.specs.Acceptance.{IsAccepted, IsFault};
ghost use Rattle.gm_model.specs.Rules.{rule_of};
ghost use Rattle.gm_tool.specs.Answer.{Check};
ghost use Rattle.gm_tool.specs.inner.Books.{IsCheckable};
ghost use Rattle.gm_lines.specs.Checking.{AreLines, IsVerdict, refusals, counts_line, check_status};
ghost use Rattle.gm_tool.specs.inner.Replies.{IsJudged, IsChecked};

use crate::book::refused;
use crate::refusal::NoText;
use crate::reply::{Reply, reply_within_limit};
use gm_book::read_book;
use gm_lines::verdict_line;
use gm_model::{Book, OutOfMemory, RuleFault, RuleTable, Schema};
use gm_text::{Text, put_number};
use std::alloc::Global;

/// A line for each rule of the book that a file's text stands for, and one that counts; or the line
/// that refuses the book.
pub fn check(alloc: Global, bytes: &[u8]) -> Result<Reply, NoText>
    ensures { IsJudged bytes.now Check result }
{
    match read_book(alloc, bytes) {
        Ok(book) => report(alloc, &book),
        Err(fault) => refused(alloc, fault),
    }
}

fn report(alloc: Global, book: &Book) -> Result<Reply, NoText>
    requires { All (λ rule. IsCheckable book.now.schema (rule_of rule)) book.now.rules }
    ensures { IsChecked book.now.schema (map rule_of book.now.rules) result }
{
    let rules = book.rules.as_slice();
    let (mut text, refused) = lines_of(alloc, &book.schema, rules)?;
    put_counts(&mut text, rules.len(), refused)?;
    reply_within_limit(status_of(refused), text.into_bytes())
}

/// The lines of the rules, and how many of these are refused.
fn lines_of(
    alloc: Global,
    schema: &Schema,
    rules: &[RuleTable],
) -> Result<(Text, usize), OutOfMemory>
    requires { All (λ rule. IsCheckable schema.now (rule_of rule)) rules.now }
    ensures { IfOk result (λ told. AreLines schema.now (map rule_of rules.now) told.1 told.0) }
{
    let mut text = Text::new(alloc);
    let mut refused = 0;
    for rule in rules {
        let fault = first_fault(schema, rule);
        let line = verdict_line(alloc, schema, rule, fault)?;
        text.put(line.as_slice())?;
        refused += refusals_of(fault);
    }
    Ok((text, refused))
}

/// The rule's first fault, where it has one.
fn first_fault(schema: &Schema, rule: &RuleTable) -> Option<RuleFault>
    requires { IsCheckable schema.now (rule_of rule.now) }
    ensures { IsVerdict schema.now (rule_of rule.now) result }
{
    check_rule(schema, rule).err()
}

/// Tests all conditions on a rule, and answers its first fault.
fn check_rule(schema: &Schema, rule: &RuleTable) -> Result<(), RuleFault>
    requires { IsCheckable schema.now (rule_of rule.now) }
    ensures { MatchResult result
        (λ _. IsAccepted schema.now (rule_of rule.now))
        (λ fault. IsFault schema.now (rule_of rule.now) fault) }
{
    gm_incident::check(schema, rule)?;
    gm_cycle::check(schema, rule)?;
    gm_embcheck::check(schema, rule)
}

fn refusals_of(fault: Option<RuleFault>) -> usize
    ensures { result ≡ refusals fault }
{
    match fault {
        Some(_) => 1,
        None => 0,
    }
}

fn put_counts(text: &mut Text, rules: usize, refused: usize) -> Result<(), OutOfMemory>
    ensures { OnOk result (text.new ≡ text.old ++ counts_line rules refused) }
{
    put_number(text, b"rules ", rules as u64)?;
    put_number(text, b" refused ", refused as u64)?;
    text.put(b"\n")
}

fn status_of(refused: usize) -> u8
    ensures { result ≡ check_status refused }
{
    if refused == 0 { 0 } else { 1 }
}
