//! Words with a number, or the name of an embedding, after them.
ghost use Rattle.std.specs.Prelude.{◌≡◌, ◌<◌, ◌++◌, OnOk, OnErr, decimal, length};
ghost use Rattle.gm_model.specs.Reports.{embed_name};
ghost use Rattle.gm_text.specs.inner.SchemaPrinting.{IsCut};

use crate::text::Text;
use gm_model::{OutOfMemory, Schema};

/// Appends words and a number in decimal digits. After a refusal a part of them, from their beginning
/// on, is appended.
pub fn put_number(text: &mut Text, words: &[u8], number: u64) -> Result<(), OutOfMemory>
    ensures ok { OnOk result (text.new ≡ text.old ++ (words.now ++ decimal number)) }
    ensures err { OnErr result (IsCut text.old (words.now ++ decimal number) text.new) }
{
    text.put(words)?;
    text.number(number)
}

/// Appends words and the name of an embedding. After a refusal a part of them, from their beginning
/// on, is appended.
pub fn put_embed(
    text: &mut Text,
    words: &[u8],
    schema: &Schema,
    embed: u8,
) -> Result<(), OutOfMemory>
    requires { embed < length schema.now.embeds }
    ensures ok { OnOk result (text.new ≡ text.old ++ (words.now ++ embed_name schema.now embed)) }
    ensures err { OnErr result (IsCut text.old (words.now ++ embed_name schema.now embed) text.new) }
{
    text.put(words)?;
    text.put(schema.embeds.as_slice()[embed as usize].name.bytes())
}
