//! The names of an environment looked up.
ghost use Rattle.std.specs.Prelude.{◌≡◌, ◌<◌, ◌≤◌, bytes_eq, length, take, IfSome};
ghost use Rattle.std.specs.List.{position};
ghost use Rattle.gm_model.specs.declared.rule.Node.{Node};
ghost use Rattle.gm_model.specs.declared.rule.Param.{Param};
ghost use Rattle.gm_tree.specs.inner.Building as building;
ghost use Rattle.gm_parse.specs.Meaning as meaning;
ghost use Rattle.gm_parse.specs.Meaning.{number_of};
ghost use Rattle.gm_tree.specs.inner.FirstNames.{first_names};

use crate::partial::Named;
use gm_model::{Node, Param, UnOp};
use gm_parse::{Env, Function, meaning_or};
use gm_text::embed_index;

/// A number of a node, a parameter or an embedding is one byte.
const MOST: usize = 256;

static FUNCTIONS: [(&[u8], Option<Function>); 9] = [
    (b"vec2", Some(Function::Vec2)),
    (b"vec3", Some(Function::Vec3)),
    (b"rgb", Some(Function::Rgb)),
    (b"x", Some(Function::Part(UnOp::X))),
    (b"y", Some(Function::Part(UnOp::Y))),
    (b"z", Some(Function::Part(UnOp::Z))),
    (b"red", Some(Function::Part(UnOp::Red))),
    (b"green", Some(Function::Part(UnOp::Green))),
    (b"blue", Some(Function::Part(UnOp::Blue))),
];

fn param_index(params: &[Param], name: &[u8]) -> Option<usize>
    ensures value { result ≡ position (λ (param : Param). bytes_eq name.now param.name) params.now }
    ensures bound { IfSome result (λ i. i < length params.now) }
{
    params.iter().position(|param| name == param.name.bytes())
}

fn is_left_named(node: &Node, name: &[u8]) -> bool
    ensures { result ≡ meaning.is_named name.now (meaning.left_name node.now) }
{
    node.left.is_some() && name == node.name.bytes()
}

fn node_index(nodes: &[Node], name: &[u8]) -> Option<usize>
    ensures value { result ≡ position (λ (node : Node). meaning.is_named name.now (meaning.left_name node)) nodes.now }
    ensures bound { IfSome result (λ i. i < length nodes.now) }
{
    nodes.iter().position(|node| is_left_named(node, name))
}

/// The first ones, as many as a byte has values.
fn first_ones<T>(all: &[T]) -> &[T]
    ensures value { result.now ≡ take 256 all.now }
    ensures few { length result.now ≤ 256 }
{
    &all[..all.len().min(MOST)]
}

fn byte_of(index: Option<usize>) -> Option<u8>
    requires { IfSome index (λ i. i < 256) }
    ensures { result ≡ index }
{
    match index {
        Some(index) => Some(index as u8),
        None => None,
    }
}

pub(crate) fn embed_named(env: &Env<'_>, name: &[u8]) -> Option<u8>
    ensures { result ≡ building.embed_of (first_names env.now.schema.now env.now.params.now env.now.nodes.now) name.now }
{
    let embeds = first_ones(env.schema.embeds.as_slice());
    byte_of(embed_index(embeds, name))
}

fn param_named(env: &Env<'_>, name: &[u8]) -> Option<u8>
    ensures { result ≡ number_of (first_names env.now.schema.now env.now.params.now env.now.nodes.now).params name.now }
{
    let params = first_ones(env.params);
    byte_of(param_index(params, name))
}

pub(crate) fn node_named(env: &Env<'_>, name: &[u8]) -> Option<u8>
    ensures { result ≡ building.node_of (first_names env.now.schema.now env.now.params.now env.now.nodes.now) name.now }
{
    let nodes = first_ones(env.nodes);
    byte_of(node_index(nodes, name))
}

fn function_named(name: &[u8]) -> Option<Function>
    ensures { result ≡ meaning.function_named name.now }
{
    meaning_or(&FUNCTIONS, name, None)
}

/// All that the name at the place can stand for.
pub(crate) fn look_up(env: &Env<'_>, name: &[u8], place: usize) -> Named
    ensures { result ≡ building.named_at (first_names env.now.schema.now env.now.params.now env.now.nodes.now) name.now place }
{
    Named {
        place,
        param: param_named(env, name),
        node: node_named(env, name),
        function: function_named(name),
    }
}
