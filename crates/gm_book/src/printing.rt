//! The canonical text of a book.
ghost use Rattle.std.specs.Prelude.{◌≡◌, ◌++◌, ◌∷◌, ◌<◌, ◌==◌, [], length, nat_eq, All, OnOk, IfOk, map, filter, codes, decimal};
ghost use Rattle.std.specs.List.{flat_map, list_any};
ghost use Rattle.gm_model.specs.Rules.{assignment_of, rule_of, node_of};
ghost use Rattle.gm_text.specs.SchemaText as schemas;
ghost use Rattle.gm_book.specs.Canonical.{canonical, param_text, params_text, rule_lines, left_lines, set_text, right_line, pre_line, link_line, letters_text, letter_text};
ghost use Rattle.gm_book.specs.inner.Printing.{CanBePrinted, NamesItsNodes, HasNamedExprs, AreNamed, AreEndsNodes, left_line, is_left};

use gm_expr::print_expr;
use gm_model::{Book, Letter, Link, Name, Node, OutOfMemory, Param, RuleTable, Schema, Set, Word};
use gm_text::{Text, kind_word, print_schema};
use std::alloc::Global;

/// The canonical text of the book, in its version. What a reader answers can be printed.
pub fn print_book(alloc: Global, book: &Book) -> Result<Vec<u8>, OutOfMemory>
    requires { CanBePrinted book.now.schema (map rule_of book.now.rules) }
    ensures { IfOk result (λ text. text.items ≡ canonical book.now.version book.now.schema (map rule_of book.now.rules)) }
{
    let mut text = Text::new(alloc);
    print_header(&mut text, book.version, &book.schema)?;
    for rule in book.rules.as_slice() {
        print_rule(&mut text, &book.schema, rule)?;
    }
    Ok(text.into_bytes())
}

fn print_header(text: &mut Text, version: u8, schema: &Schema) -> Result<(), OutOfMemory>
    ensures { OnOk result (text.new ≡ text.old ++ (codes "book " ++ decimal version ++ codes "\n" ++ schemas.canonical schema.now)) }
{
    text.put(b"book ")?;
    text.number(u64::from(version))?;
    text.put(b"\n")?;
    print_schema(text, schema)
}

fn print_rule(text: &mut Text, schema: &Schema, rule: &RuleTable) -> Result<(), OutOfMemory>
    requires numbers { NamesItsNodes (rule_of rule.now) }
    requires exprs { HasNamedExprs schema.now (rule_of rule.now) }
    ensures { OnOk result (text.new ≡ text.old ++ rule_lines schema.now (rule_of rule.now)) }
{
    let nodes = rule.nodes.as_slice();
    text.put(b"rule ")?;
    text.put(rule.name.bytes())?;
    print_params(text, rule.params.as_slice())?;
    text.put(b"\nleft\n")?;
    print_left_nodes(text, nodes, rule.hooks.as_slice())?;
    print_links(text, nodes, rule.left_links.as_slice())?;
    text.put(b"right\n")?;
    print_right_nodes(text, schema, rule, true)?;
    print_right_nodes(text, schema, rule, false)?;
    print_links(text, nodes, rule.right_links.as_slice())?;
    print_pre(text, schema, rule)
}

/// Nothing, where there is no parameter.
fn print_params(text: &mut Text, params: &[Param]) -> Result<(), OutOfMemory>
    ensures { OnOk result (text.new ≡ text.old ++ params_text params.now) }
{
    let [first, others @ ..] = params else {
        return Ok(());
    };
    text.put(b"(")?;
    print_param(text, first)?;
    for param in others {
        text.put(b", ")?;
        print_param(text, param)?;
    }
    text.put(b")")
}

fn print_param(text: &mut Text, param: &Param) -> Result<(), OutOfMemory>
    ensures { OnOk result (text.new ≡ text.old ++ param_text param.now) }
{
    text.put(param.name.bytes())?;
    text.put(b": ")?;
    text.put(kind_word(param.kind))
}

fn print_left_nodes(text: &mut Text, nodes: &[Node], hooks: &[u8]) -> Result<(), OutOfMemory>
    ensures { OnOk result (text.new ≡ text.old ++ left_lines hooks.now 0 (map node_of nodes.now)) }
{
    for (number, node) in nodes.iter().enumerate() {
        print_left_node(text, node, is_among(hooks, number))?;
    }
    Ok(())
}

/// Nothing, where the node isn't a left one.
fn print_left_node(text: &mut Text, node: &Node, is_hook: bool) -> Result<(), OutOfMemory>
    ensures { OnOk result (text.new ≡ text.old ++ left_line (node_of node.now) is_hook) }
{
    match &node.left {
        Some(word) => {
            print_word(text, &node.name, word)?;
            text.put(if is_hook { b" hook\n" } else { b"\n" })
        }
        None => Ok(()),
    }
}

fn is_among(hooks: &[u8], number: usize) -> bool
    ensures { result ≡ list_any (nat_eq number) hooks.now }
{
    hooks.iter().any(|hook| number == usize::from(*hook))
}

/// The right nodes that are left nodes too, or those that aren't.
fn print_right_nodes(
    text: &mut Text,
    schema: &Schema,
    rule: &RuleTable,
    left_too: bool,
) -> Result<(), OutOfMemory>
    requires { HasNamedExprs schema.now (rule_of rule.now) }
    ensures { OnOk result (text.new ≡ text.old ++ flat_map (right_line schema.now (rule_of rule.now)) (filter (is_left left_too) (map node_of rule.now.nodes))) }
{
    for node in rule.nodes.as_slice() {
        print_right_node(text, schema, rule, node, left_too)?;
    }
    Ok(())
}

/// Nothing, where the node isn't such a right one.
fn print_right_node(
    text: &mut Text,
    schema: &Schema,
    rule: &RuleTable,
    node: &Node,
    left_too: bool,
) -> Result<(), OutOfMemory>
    requires { AreNamed schema.now (rule_of rule.now) (map assignment_of node.now.sets) }
    ensures { OnOk result (text.new ≡ text.old ++ flat_map (right_line schema.now (rule_of rule.now)) (filter (is_left left_too) (node_of node.now ∷ []))) }
{
    match &node.right {
        Some(word) if node.left.is_some() == left_too => {
            print_word(text, &node.name, word)?;
            print_sets(text, schema, rule, node.sets.as_slice())?;
            text.put(b"\n")
        }
        _ => Ok(()),
    }
}

fn print_sets(
    text: &mut Text,
    schema: &Schema,
    rule: &RuleTable,
    sets: &[Set],
) -> Result<(), OutOfMemory>
    requires { AreNamed schema.now (rule_of rule.now) (map assignment_of sets.now) }
    ensures { OnOk result (text.new ≡ text.old ++ flat_map (set_text schema.now (rule_of rule.now)) (map assignment_of sets.now)) }
{
    let embeds = schema.embeds.as_slice();
    for set in sets {
        text.put(b" with ")?;
        text.put(embeds[usize::from(set.embed)].name.bytes())?;
        text.put(b" = ")?;
        print_expr(text, schema, rule, &set.expr)?;
    }
    Ok(())
}

/// The name of a node and its word.
fn print_word(text: &mut Text, name: &Name, word: &Word) -> Result<(), OutOfMemory>
    ensures { OnOk result (text.new ≡ text.old ++ (name.now ++ codes " <" ++ letters_text word.now ++ codes ">")) }
{
    text.put(name.bytes())?;
    text.put(b" <")?;
    for place in 0..word.len() {
        text.put(if place == 0 { b"" } else { b" " })?;
        print_letter(text, word.letter(place))?;
    }
    text.put(b">")
}

fn print_letter(text: &mut Text, letter: Letter) -> Result<(), OutOfMemory>
    ensures { OnOk result (text.new ≡ text.old ++ letter_text letter) }
{
    match letter {
        Letter::At(label) => text.number(u64::from(label)),
        Letter::Gone => text.put(b"_"),
    }
}

fn print_links(text: &mut Text, nodes: &[Node], links: &[Link]) -> Result<(), OutOfMemory>
    requires { All (AreEndsNodes (length nodes.now)) links.now }
    ensures { OnOk result (text.new ≡ text.old ++ flat_map (link_line (map node_of nodes.now)) links.now) }
{
    for link in links {
        text.put(nodes[usize::from(link.from)].name.bytes())?;
        text.put(b" -")?;
        text.number(u64::from(link.label))?;
        text.put(b"- ")?;
        text.put(nodes[usize::from(link.to)].name.bytes())?;
        text.put(b"\n")?;
    }
    Ok(())
}

/// Nothing, where the rule has no precondition.
fn print_pre(text: &mut Text, schema: &Schema, rule: &RuleTable) -> Result<(), OutOfMemory>
    requires { HasNamedExprs schema.now (rule_of rule.now) }
    ensures { OnOk result (text.new ≡ text.old ++ pre_line schema.now (rule_of rule.now)) }
{
    match &rule.pre {
        Some(pre) => {
            text.put(b"pre ")?;
            print_expr(text, schema, rule, pre)?;
            text.put(b"\n")
        }
        None => Ok(()),
    }
}
