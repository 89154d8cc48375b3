// Free names: those that a cell takes from other cells.
ghost use Rattle.std.specs.Prelude.{◌≡◌};
ghost use Rattle.cell_graph.specs.Texts.{texts};
ghost use Rattle.py_tree.specs.Names as names;
ghost use Rattle.py_tree.specs.Scope as scope;

use crate::name_set::has;
use indexmap::IndexSet;
use py_tree::is_builtin;

// Whether a name that a cell reads is one that it takes from other cells.
pub(crate) fn is_free(bound: &IndexSet<&str>, name: &str) -> bool
    ensures { result ≡ scope.is_free (texts bound.now.keys) name.now }
{
    !has(bound, name) && !is_local(name) && !is_builtin(name)
}

// Whether the name begins with `_`.
pub(crate) fn is_local(name: &str) -> bool
    ensures { result ≡ names.is_local name.now }
{
    match name.as_bytes() {
        [] => false,
        [first, ..] => *first == b'_',
    }
}
