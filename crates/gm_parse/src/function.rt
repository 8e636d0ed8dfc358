//! The functions of expressions that have a name and arguments.
use gm_model::UnOp;

/// A function by its name.
#[derive(Clone, Copy)]
pub enum Function {
    Vec2,
    Vec3,
    Rgb,
    /// A component.
    Part(UnOp),
}
