// Kinds of errors.

/// The kind of an error that ends a cell. The first nine are Python's own (Python library reference, "Built-in Exceptions").
#[derive(Clone, Copy, Debug, PartialEq, Eq)]
pub enum ErrorKind {
    NameError,
    TypeError,
    ValueError,
    IndexError,
    KeyError,
    AttributeError,
    ZeroDivisionError,
    RuntimeError,
    RecursionError,
    /// A whole number past the range.
    IntRange,
    /// Code outside the language that is run here.
    Subset,
    /// The cell's budget of steps is spent.
    Spent,
}
