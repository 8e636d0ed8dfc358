//! The canonical text of orbits, of dart terms and of what is read at them.
ghost use Rattle.std.specs.Prelude.{◌≡◌, ◌++◌, ◌<◌, codes, decimal, length, IfOk, OnOk, OnErr};
ghost use Rattle.gm_model.specs.Rules.{name_at, rule_of};
ghost use Rattle.gm_text.specs.inner.SchemaPrinting.{IsCut};
ghost use Rattle.gm_expr.specs.ExprText.{collector_text, count_text, embed_name, field_text, IsFieldNamed, orbit_text, path_text, same_text, term_text};

use gm_model::{DartTerm, Mask, OutOfMemory, RuleTable, Schema};
use gm_text::{Text, print_labels};

/// `@` and the label.
fn print_step(out: &mut Text, label: u8) -> Result<(), OutOfMemory>
    ensures ok { OnOk result (out.new ≡ out.old ++ (codes "@" ++ decimal label)) }
    ensures err { OnErr result (IsCut out.old (codes "@" ++ decimal label) out.new) }
{
    out.put(b"@")?;
    out.number(u64::from(label))
}

fn print_path(out: &mut Text, path: &[u8]) -> Result<(), OutOfMemory>
    ensures ok { OnOk result (out.new ≡ out.old ++ path_text path.now) }
    ensures err { OnErr result (IsCut out.old (path_text path.now) out.new) }
{
    for label in path {
        print_step(out, *label)?;
    }
    Ok(())
}

fn print_node_name(out: &mut Text, rule: &RuleTable, node: u8) -> Result<(), OutOfMemory>
    requires { node < length (rule_of rule.now).nodes }
    ensures ok { OnOk result (out.new ≡ out.old ++ name_at (rule_of rule.now).nodes node) }
    ensures err { OnErr result (out.new ≡ out.old) }
{
    out.put(rule.nodes.as_slice()[usize::from(node)].name.bytes())
}

fn print_embed_name(out: &mut Text, schema: &Schema, embed: u8) -> Result<(), OutOfMemory>
    requires { embed < length schema.now.embeds }
    ensures ok { OnOk result (out.new ≡ out.old ++ embed_name schema.now.embeds embed) }
    ensures err { OnErr result (out.new ≡ out.old) }
{
    out.put(schema.embeds.as_slice()[usize::from(embed)].name.bytes())
}

fn print_term(out: &mut Text, rule: &RuleTable, term: &DartTerm) -> Result<(), OutOfMemory>
    requires { term.now.node < length (rule_of rule.now).nodes }
    ensures ok { OnOk result (out.new ≡ out.old ++ term_text (rule_of rule.now).nodes term.now) }
    ensures err { OnErr result (IsCut out.old (term_text (rule_of rule.now).nodes term.now) out.new) }
{
    print_node_name(out, rule, term.node)?;
    print_path(out, term.path.as_slice())
}

fn print_orbit(out: &mut Text, mask: Mask) -> Result<(), OutOfMemory>
    ensures ok { OnOk result (out.new ≡ out.old ++ orbit_text mask) }
    ensures err { OnErr result (IsCut out.old (orbit_text mask) out.new) }
{
    out.put(b"<")?;
    print_labels(out, mask)?;
    out.put(b">")
}

/// The embedding at the dart.
pub(crate) fn print_field(
    out: &mut Text,
    schema: &Schema,
    rule: &RuleTable,
    term: &DartTerm,
    embed: u8,
) -> Result<(), OutOfMemory>
    requires { IsFieldNamed schema.now (rule_of rule.now) term.now embed }
    ensures ok { OnOk result (out.new ≡ out.old ++ field_text schema.now.embeds (rule_of rule.now).nodes term.now embed) }
    ensures err { OnErr result (IsCut out.old (field_text schema.now.embeds (rule_of rule.now).nodes term.now embed) out.new) }
{
    print_term(out, rule, term)?;
    out.put(b".")?;
    print_embed_name(out, schema, embed)
}

/// A function of an embedding over the darts of an orbit.
pub(crate) fn print_collector(
    out: &mut Text,
    schema: &Schema,
    rule: &RuleTable,
    name: &[u8],
    mask: Mask,
    term: &DartTerm,
    embed: u8,
) -> Result<(), OutOfMemory>
    requires { IsFieldNamed schema.now (rule_of rule.now) term.now embed }
    ensures ok { OnOk result (out.new ≡ out.old ++ collector_text schema.now.embeds (rule_of rule.now).nodes name.now mask term.now embed) }
    ensures err { OnErr result (IsCut out.old (collector_text schema.now.embeds (rule_of rule.now).nodes name.now mask term.now embed) out.new) }
{
    out.put(name)?;
    print_orbit(out, mask)?;
    out.put(b"(")?;
    print_field(out, schema, rule, term, embed)?;
    out.put(b")")
}

/// How many darts an orbit has.
pub(crate) fn print_count(
    out: &mut Text,
    rule: &RuleTable,
    mask: Mask,
    term: &DartTerm,
) -> Result<(), OutOfMemory>
    requires { term.now.node < length (rule_of rule.now).nodes }
    ensures ok { OnOk result (out.new ≡ out.old ++ count_text (rule_of rule.now).nodes mask term.now) }
    ensures err { OnErr result (IsCut out.old (count_text (rule_of rule.now).nodes mask term.now) out.new) }
{
    out.put(b"count")?;
    print_orbit(out, mask)?;
    out.put(b"(")?;
    print_term(out, rule, term)?;
    out.put(b")")
}

/// Whether two terms name one dart.
pub(crate) fn print_same(
    out: &mut Text,
    rule: &RuleTable,
    left: &DartTerm,
    right: &DartTerm,
) -> Result<(), OutOfMemory>
    requires left { left.now.node < length (rule_of rule.now).nodes }
    requires right { right.now.node < length (rule_of rule.now).nodes }
    ensures ok { OnOk result (out.new ≡ out.old ++ same_text (rule_of rule.now).nodes left.now right.now) }
    ensures err { OnErr result (IsCut out.old (same_text (rule_of rule.now).nodes left.now right.now) out.new) }
{
    out.put(b"same(")?;
    print_term(out, rule, left)?;
    out.put(b", ")?;
    print_term(out, rule, right)?;
    out.put(b")")
}
