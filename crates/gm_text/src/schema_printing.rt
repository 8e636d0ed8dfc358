//! The canonical text of a schema.
ghost use Rattle.std.specs.Prelude.{◌≡◌, ◌<◌, ◌^◌, ◌++◌, OnOk, OnErr};
ghost use Rattle.std.specs.List.{flat_map};
ghost use Rattle.gm_text.specs.SchemaText.{canonical, embed_line, kind_word, labels_in, labels_text};
ghost use Rattle.gm_text.specs.inner.SchemaPrinting.{AreParts, IsCut, IsPart};

use crate::after_words::put_number;
use crate::text::Text;
use gm_model::{Embed, Kind, Mask, OutOfMemory, Schema};

/// Appends the canonical text of the schema: a line for the dimension, and one for each embedding.
/// After a refusal a part of it, from its beginning on, is appended.
pub fn print_schema(out: &mut Text, schema: &Schema) -> Result<(), OutOfMemory>
    ensures ok { OnOk result (out.new ≡ out.old ++ canonical schema.now) }
    ensures err { OnErr result (IsCut out.old (canonical schema.now) out.new) }
    ensures parts { OnOk result (AreParts schema.now.embeds) }
{
    out.put(b"dim ")?;
    out.number(u64::from(schema.dim.top()))?;
    out.put(b"\n")?;
    print_embeds(out, schema.embeds.as_slice())
}

fn print_embeds(out: &mut Text, embeds: &[Embed]) -> Result<(), OutOfMemory>
    ensures ok { OnOk result (out.new ≡ out.old ++ flat_map embed_line embeds.now) }
    ensures err { OnErr result (IsCut out.old (flat_map embed_line embeds.now) out.new) }
    ensures parts { OnOk result (AreParts embeds.now) }
{
    for embed in embeds {
        print_embed(out, embed)?;
    }
    Ok(())
}

fn print_embed(out: &mut Text, embed: &Embed) -> Result<(), OutOfMemory>
    ensures ok { OnOk result (out.new ≡ out.old ++ embed_line embed.now) }
    ensures err { OnErr result (IsCut out.old (embed_line embed.now) out.new) }
    ensures part { OnOk result (IsPart embed.now) }
{
    put_between(out, b"embed ", embed.name.bytes(), b" <")?;
    print_labels(out, embed.mask)?;
    put_between(out, b"> ", kind_word(embed.kind), b"\n")
}

/// The bytes, between what leads to them and what stands after them.
fn put_between(out: &mut Text, lead: &[u8], bytes: &[u8], end: &[u8]) -> Result<(), OutOfMemory>
    ensures ok { OnOk result (out.new ≡ out.old ++ (lead.now ++ (bytes.now ++ end.now))) }
    ensures err { OnErr result (IsCut out.old (lead.now ++ (bytes.now ++ end.now)) out.new) }
{
    out.put(lead)?;
    out.put(bytes)?;
    out.put(end)
}

/// Appends the labels of the mask in ascending order, with one blank between two. After a refusal a
/// part of them, from their beginning on, is appended.
pub fn print_labels(out: &mut Text, mask: Mask) -> Result<(), OutOfMemory>
    ensures ok { OnOk result (out.new ≡ out.old ++ labels_text (labels_in mask)) }
    ensures err { OnErr result (IsCut out.old (labels_text (labels_in mask)) out.new) }
    ensures bits { mask.bits < 2 ^ 8 }
{
    let mut gap: &'static [u8] = b"";
    for label in 0..8 {
        if mask.has(label) {
            put_number(out, gap, u64::from(label))?;
            gap = b" ";
        }
    }
    Ok(())
}

/// The word by which a schema or a parameter names the kind.
pub fn kind_word(kind: Kind) -> &'static [u8]
    ensures { result.now ≡ kind_word kind }
{
    match kind {
        Kind::Int => b"int",
        Kind::Bool => b"bool",
        Kind::Vec2 => b"vec2",
        Kind::Vec3 => b"vec3",
        Kind::Rgb => b"rgb",
    }
}
