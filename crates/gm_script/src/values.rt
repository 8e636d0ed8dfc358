//! The values of a line, once the kinds of its rule's parameters are known.
ghost use Rattle.std.specs.Prelude.{◌≡◌, None, Some, IsTrue, IsFalse};
ghost use Rattle.gm_text.specs.ValueText as numbers;
ghost use Rattle.gm_script.specs.ScriptText as script;
ghost use Rattle.gm_script.specs.inner.Comparing.{value_for, params_for};

use gm_model::{Kind, Param, Value};

/// Makes the values what the parameters' kinds take, and answers whether they take all of them. Where
/// they don't, some may be made so.
pub(crate) fn fit(values: &mut [Value], params: &[Param]) -> bool
    ensures fit { IsTrue result → params_for params.now values.old ≡ Some values.new }
    ensures unfit { IsFalse result → params_for params.now values.old ≡ None }
{
    if values.len() != params.len() {
        return false;
    }
    for (index, param) in params.iter().enumerate() {
        match value_of(param.kind, values[index]) {
            Some(value) => values[index] = value,
            None => return false,
        }
    }
    true
}

fn value_of(kind: Kind, value: Value) -> Option<Value>
    ensures { result ≡ value_for kind value }
{
    match (kind, value) {
        (Kind::Int, Value::Int(_)) => Some(value),
        (Kind::Bool, Value::Bool(_)) => Some(value),
        (Kind::Vec2, Value::Vec2(_, _)) => Some(value),
        (Kind::Vec3, Value::Vec3(_, _, _)) => Some(value),
        (Kind::Rgb, Value::Vec3(r, g, b)) => colour(r, g, b),
        _ => None,
    }
}

fn colour(r: i64, g: i64, b: i64) -> Option<Value>
    ensures { result ≡ script.colour r g b }
{
    if is_channel(r) && is_channel(g) && is_channel(b) {
        Some(Value::Rgb(r as u8, g as u8, b as u8))
    } else {
        None
    }
}

fn is_channel(n: i64) -> bool
    ensures { result ≡ numbers.is_channel n }
{
    0 <= n && n <= 255
}
