// What a name is bound to.
use py_value::Value;

/// What a name is bound to.
#[derive(Debug, Drop)]
pub enum Binding {
    /// A value.
    Plain(Value),
    /// The module `mo`.
    Module,
}
