//! The values of embeddings and parameters, and their kinds.

ghost use Rattle.std.specs.Prelude.{◌≡◌};
ghost use Rattle.gm_model.specs.Values.{kind_of};

/// The kind of a value.
#[derive(Clone, Copy, PartialEq, Eq)]
pub enum Kind {
    Int,
    Bool,
    Vec2,
    Vec3,
    /// A colour.
    Rgb,
}

/// A value of an embedding or a parameter.
#[derive(Clone, Copy, PartialEq, Eq)]
pub enum Value {
    Int(i64),
    Bool(bool),
    Vec2(i64, i64),
    Vec3(i64, i64, i64),
    /// A colour: red, green and blue.
    Rgb(u8, u8, u8),
}

impl Value {
    /// Its kind.
    pub fn kind(self) -> Kind
        ensures { result ≡ kind_of self }
    {
        match self {
            Value::Int(_) => Kind::Int,
            Value::Bool(_) => Kind::Bool,
            Value::Vec2(_, _) => Kind::Vec2,
            Value::Vec3(_, _, _) => Kind::Vec3,
            Value::Rgb(_, _, _) => Kind::Rgb,
        }
    }
}
