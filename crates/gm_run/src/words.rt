//! The words that say what became of a statement.
ghost use Rattle.std.specs.Prelude.{◌≡◌, ◌++◌, ◌<◌, IsSomeAnd, OnOk, codes, decimal, length, map};
ghost use Rattle.gm_model.specs.Rules.{name_at, node_of};
ghost use Rattle.gm_model.specs.Reports.{instance_words};
ghost use Rattle.gm_model.specs.Runs as runs;
ghost use Rattle.gm_run.specs.inner.Lines.{outcome_of, cause_of};
ghost use Rattle.gm_run.specs.inner.Printing.{SpeaksOf, refusal_words, told_words};

use crate::outcome::Outcome;
use gm_apply::{Applied, Refusal};
use gm_model::{Node, OutOfMemory, Schema};
use gm_text::{Text, put_embed, put_number};

/// Appends the outcome of a statement whose rule has these nodes.
pub(crate) fn put_outcome(
    text: &mut Text,
    schema: &Schema,
    nodes: &[Node],
    outcome: Outcome,
) -> Result<(), OutOfMemory>
    requires { IsSomeAnd (outcome_of outcome) (SpeaksOf (length nodes.now) (length schema.now.embeds)) }
    ensures { OnOk result (text.new ≡ text.old ++ told_words schema.now (map node_of nodes.now) outcome) }
{
    match outcome {
        Outcome::Done(Applied { added, removed }) => put_done(text, added, removed),
        Outcome::Refused(refusal) => {
            text.put(b"refused ")?;
            put_cause(text, schema, nodes, refusal)
        }
        Outcome::Skipped => text.put(b"skipped"),
        Outcome::Undone => text.put(b"done"),
        Outcome::Redone => text.put(b"done"),
        Outcome::NothingToUndo => text.put(b"refused nothing-to-undo"),
        Outcome::NothingToRedo => text.put(b"refused nothing-to-redo"),
        Outcome::Begun => text.put(b"begun"),
        Outcome::Kept => text.put(b"kept"),
        Outcome::Dropped => text.put(b"dropped"),
        Outcome::Each {
            done,
            refused,
            passed,
        } => put_each(text, done, refused, passed),
    }
}

/// Appends that a rule was applied, and how many darts it added and removed.
fn put_done(text: &mut Text, added: u32, removed: u32) -> Result<(), OutOfMemory>
    ensures { OnOk result (text.new ≡ text.old ++ (codes "done added " ++ decimal added ++ codes " removed " ++ decimal removed)) }
{
    put_numbers(
        text,
        b"done added ",
        u64::from(added),
        b" removed ",
        u64::from(removed),
    )
}

fn put_cause(
    text: &mut Text,
    schema: &Schema,
    nodes: &[Node],
    refusal: Refusal,
) -> Result<(), OutOfMemory>
    requires { IsSomeAnd (cause_of refusal) (λ cause. SpeaksOf (length nodes.now) (length schema.now.embeds) (runs.Refused cause)) }
    ensures { OnOk result (text.new ≡ text.old ++ refusal_words schema.now (map node_of nodes.now) refusal) }
{
    match refusal {
        Refusal::NoDart { index } => put_number(text, b"no-dart hook ", u64::from(index)),
        Refusal::Arc {
            node,
            position,
            label,
        } => {
            put_instance(text, b"no-match arc ", nodes, node, position)?;
            put_number(text, b" ", u64::from(label))
        }
        Refusal::Same {
            node,
            position,
            node2,
            position2,
        } => {
            put_instance(text, b"no-match same ", nodes, node, position)?;
            put_instance(text, b" ", nodes, node2, position2)
        }
        Refusal::PreNoValue => text.put(b"pre-no-value"),
        Refusal::PreFalse => text.put(b"pre-false"),
        Refusal::FullDarts { live, more } => {
            put_numbers(text, b"full-darts live ", u64::from(live), b" more ", more)
        }
        Refusal::FullNames { next, more } => {
            put_numbers(text, b"full-names next ", u64::from(next), b" more ", more)
        }
        Refusal::NoValue { embed, node } => {
            put_embed(text, b"no-value ", schema, embed)?;
            put_node(text, b" ", nodes, node)
        }
        Refusal::OutOfMemory => Err(OutOfMemory),
    }
}

/// Appends how many applications of an `each` were done, refused, and passed over.
fn put_each(text: &mut Text, done: u32, refused: u32, passed: u32) -> Result<(), OutOfMemory>
    ensures { OnOk result (text.new ≡ text.old ++ (codes "done " ++ decimal done ++ codes " refused " ++ decimal refused ++ codes " passed " ++ decimal passed)) }
{
    put_numbers(
        text,
        b"done ",
        u64::from(done),
        b" refused ",
        u64::from(refused),
    )?;
    put_number(text, b" passed ", u64::from(passed))
}

/// Appends words, and the name of a node with a position.
fn put_instance(
    text: &mut Text,
    words: &[u8],
    nodes: &[Node],
    node: u8,
    position: u32,
) -> Result<(), OutOfMemory>
    requires { node < length nodes.now }
    ensures { OnOk result (text.new ≡ text.old ++ (words.now ++ instance_words (map node_of nodes.now) node position)) }
{
    put_node(text, words, nodes, node)?;
    put_number(text, b" ", u64::from(position))
}

/// Appends words and the name of a node.
fn put_node(text: &mut Text, words: &[u8], nodes: &[Node], node: u8) -> Result<(), OutOfMemory>
    requires { node < length nodes.now }
    ensures { OnOk result (text.new ≡ text.old ++ (words.now ++ name_at (map node_of nodes.now) node)) }
{
    text.put(words)?;
    text.put(nodes[node as usize].name.bytes())
}

/// Appends words and a number, and then others.
fn put_numbers(
    text: &mut Text,
    words: &[u8],
    number: u64,
    more_words: &[u8],
    more: u64,
) -> Result<(), OutOfMemory>
    ensures { OnOk result (text.new ≡ text.old ++ (words.now ++ decimal number ++ more_words.now ++ decimal more)) }
{
    put_number(text, words, number)?;
    put_number(text, more_words, more)
}
