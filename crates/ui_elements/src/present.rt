// Present values.
use py_value::{NameMap, Value};

/// The present values of elements by their names.
pub type Present = NameMap<Value>;
