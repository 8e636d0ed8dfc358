//! The dual of a schema.

ghost use Rattle.std.specs.Prelude.{◌≡◌, ◌≤◌, IfOk, map};
ghost use Rattle.gm_dual.specs.Duals as duals;
ghost use Rattle.gm_model.specs.declared.limit.TheConstants.{MOST_DIMENSION};

use crate::labels::dual_mask;
use gm_model::{Embed, Items, OutOfMemory, Schema};
use std::alloc::Global;

/// The embeddings in their order, each over the labels that trade places with its own.
pub(crate) fn dual_schema(alloc: Global, schema: &Schema) -> Result<Schema, OutOfMemory>
    ensures { IfOk result (λ dual. dual ≡ duals.dual_schema schema.now) }
{
    Ok(Schema {
        dim: schema.dim,
        embeds: dual_embeds(alloc, schema.dim.top(), schema.embeds.as_slice())?,
    })
}

fn dual_embeds(alloc: Global, top: u8, embeds: &[Embed]) -> Result<Items<Embed>, OutOfMemory>
    requires { top ≤ MOST_DIMENSION }
    ensures { IfOk result (λ made. made ≡ map (duals.dual_embed top) embeds.now) }
{
    let mut made = Vec::new(alloc);
    for embed in embeds {
        made.push(dual_embed(top, embed))?;
    }
    Ok(Items::new(made))
}

fn dual_embed(top: u8, embed: &Embed) -> Embed
    requires { top ≤ MOST_DIMENSION }
    ensures { result ≡ duals.dual_embed top embed.now }
{
    Embed {
        name: embed.name,
        mask: dual_mask(top, embed.mask),
        kind: embed.kind,
    }
}
