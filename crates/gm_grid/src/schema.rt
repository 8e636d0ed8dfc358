//! The schema that the map and the book of a grid have.
ghost use Rattle.std.specs.Prelude.{◌≡◌, IfOk};
ghost use Rattle.gm_model.specs.Names.{IsName};
ghost use Rattle.gm_grid.specs.GridMap.{grid_schema, positions};

use gm_model::{Dim, Embed, Items, Kind, Mask, Name, OutOfMemory, Schema};
use std::alloc::Global;

/// Dimension 2, with one point for each orbit over the labels 1 and 2.
pub(crate) fn make_schema(alloc: Global) -> Result<Schema, OutOfMemory>
    ensures { IfOk result (λ schema. schema ≡ grid_schema) }
{
    let mut embeds = Vec::new(alloc);
    embeds.push(points())?;
    Ok(Schema {
        dim: Dim::new(2).unwrap(),
        embeds: Items::new(embeds),
    })
}

fn points() -> Embed
    ensures { result ≡ positions }
{
    Embed {
        name: name(b"pos"),
        mask: Mask { bits: 6 },
        kind: Kind::Vec3,
    }
}

/// The name of these bytes.
pub(crate) fn name(bytes: &[u8]) -> Name
    requires { IsName bytes.now }
    ensures { result ≡ bytes.now }
{
    Name::new(bytes).unwrap()
}
