//! The lines that say of a rule whether it is accepted.

ghost use Rattle.std.specs.Prelude.{◌≡◌, ◌++◌, ◌<◌, OnOk, IfOk, codes, decimal, length};
ghost use Rattle.gm_lines.specs.Refusing.{refusal};
ghost use Rattle.gm_model.specs.Rules.{rule_of};
ghost use Rattle.gm_lines.specs.inner.Speaking.{IsSayable, SpeaksOf};
ghost use Rattle.gm_lines.specs.Checking.{rule_line, verdict_words, rule_fault_words, node_name, side_word};

use gm_model::{OutOfMemory, RuleFault, RuleTable, Schema, Side};
use gm_text::{Text, put_embed, put_number};
use std::alloc::Global;

/// The line of a rule, with its line end: accepted, or refused with its first fault.
pub fn verdict_line(
    alloc: Global,
    schema: &Schema,
    rule: &RuleTable,
    fault: Option<RuleFault>,
) -> Result<Vec<u8>, OutOfMemory>
    requires { IsSayable schema.now (rule_of rule.now) fault }
    ensures { IfOk result (λ line. line.items ≡ rule_line schema.now (rule_of rule.now) fault) }
{
    let mut text = Text::new(alloc);
    text.put(b"rule ")?;
    text.put(rule.name.bytes())?;
    put_verdict(&mut text, schema, rule, fault)?;
    text.put(b"\n")?;
    Ok(text.into_bytes())
}

/// The line that refuses a book for its first rule that isn't accepted, with its line end.
pub fn refused_rule_line(
    alloc: Global,
    schema: &Schema,
    rule: &RuleTable,
    fault: RuleFault,
) -> Result<Vec<u8>, OutOfMemory>
    requires { SpeaksOf (length (rule_of rule.now).nodes) (length schema.now.embeds) fault }
    ensures { IfOk result (λ line. line.items ≡ refusal (codes "BOOK" ++ codes " " ++ (codes "rule " ++ (rule_of rule.now).name ++ codes " " ++ rule_fault_words schema.now (rule_of rule.now) fault))) }
{
    let mut text = Text::new(alloc);
    text.put(b"refused BOOK rule ")?;
    text.put(rule.name.bytes())?;
    text.put(b" ")?;
    put_rule_fault(&mut text, schema, rule, fault)?;
    text.put(b"\n")?;
    Ok(text.into_bytes())
}

fn put_verdict(
    text: &mut Text,
    schema: &Schema,
    rule: &RuleTable,
    fault: Option<RuleFault>,
) -> Result<(), OutOfMemory>
    requires { IsSayable schema.now (rule_of rule.now) fault }
    ensures { OnOk result (text.new ≡ text.old ++ (codes " " ++ verdict_words schema.now (rule_of rule.now) fault)) }
{
    let Some(fault) = fault else {
        return text.put(b" accepted");
    };
    text.put(b" refused ")?;
    put_rule_fault(text, schema, rule, fault)
}

fn put_rule_fault(
    text: &mut Text,
    schema: &Schema,
    rule: &RuleTable,
    fault: RuleFault,
) -> Result<(), OutOfMemory>
    requires { SpeaksOf (length (rule_of rule.now).nodes) (length schema.now.embeds) fault }
    ensures { OnOk result (text.new ≡ text.old ++ rule_fault_words schema.now (rule_of rule.now) fault) }
{
    match fault {
        RuleFault::Hooks => text.put(b"hooks"),
        RuleFault::HookWord { node } => put_node(text, b"hook-word ", rule, node),
        RuleFault::WordLength { node } => put_node(text, b"word-length ", rule, node),
        RuleFault::NotConnected { node } => put_node(text, b"not-connected ", rule, node),
        RuleFault::ArcTwice { node, label, side } => {
            put_label(text, b"arc-twice ", rule, node, label)?;
            put_side(text, side)
        }
        RuleFault::ArcMissing { node, label } => {
            put_label(text, b"arc-missing ", rule, node, label)
        }
        RuleFault::ArcSetDiffers { node, label } => put_label(text, b"arc-set ", rule, node, label),
        RuleFault::Square { node, i, j } => {
            put_label(text, b"square ", rule, node, i)?;
            put_number(text, b" ", u64::from(j))
        }
        RuleFault::SetTwice { embed, node, other } => {
            put_embed(text, b"set-twice ", schema, embed)?;
            put_nodes(text, rule, node, other)
        }
        RuleFault::NoValue { embed, node } => {
            put_embed(text, b"no-value ", schema, embed)?;
            put_node(text, b" ", rule, node)
        }
        RuleFault::Merge { embed, node, other } => {
            put_embed(text, b"merge ", schema, embed)?;
            put_nodes(text, rule, node, other)
        }
        RuleFault::MergeAlong { embed, node, place } => {
            put_embed(text, b"merge-along ", schema, embed)?;
            put_label(text, b" ", rule, node, place)
        }
    }
}

/// Appends words and the name of a node.
fn put_node(text: &mut Text, words: &[u8], rule: &RuleTable, node: u8) -> Result<(), OutOfMemory>
    requires { node < length (rule_of rule.now).nodes }
    ensures { OnOk result (text.new ≡ text.old ++ (words.now ++ node_name (rule_of rule.now) node)) }
{
    text.put(words)?;
    text.put(rule.nodes.as_slice()[node as usize].name.bytes())
}

fn put_nodes(text: &mut Text, rule: &RuleTable, node: u8, other: u8) -> Result<(), OutOfMemory>
    requires node { node < length (rule_of rule.now).nodes }
    requires other { other < length (rule_of rule.now).nodes }
    ensures { OnOk result (text.new ≡ text.old ++ (codes " " ++ node_name (rule_of rule.now) node ++ codes " " ++ node_name (rule_of rule.now) other)) }
{
    put_node(text, b" ", rule, node)?;
    put_node(text, b" ", rule, other)
}

/// Appends words, the name of a node and a label or place.
fn put_label(
    text: &mut Text,
    words: &[u8],
    rule: &RuleTable,
    node: u8,
    label: u8,
) -> Result<(), OutOfMemory>
    requires { node < length (rule_of rule.now).nodes }
    ensures { OnOk result (text.new ≡ text.old ++ (words.now ++ node_name (rule_of rule.now) node ++ codes " " ++ decimal label)) }
{
    put_node(text, words, rule, node)?;
    put_number(text, b" ", u64::from(label))
}

fn put_side(text: &mut Text, side: Side) -> Result<(), OutOfMemory>
    ensures { OnOk result (text.new ≡ text.old ++ (codes " " ++ side_word side)) }
{
    text.put(match side {
        Side::Left => b" left",
        Side::Right => b" right",
    })
}
