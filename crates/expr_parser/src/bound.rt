// Ends of slices, with their depths.
ghost use Rattle.std.specs.Prelude.{◌≡◌};
ghost use Rattle.py_tree.specs.ExprView.{view};
ghost use Rattle.py_tree.specs.Expressions as form;
ghost use Rattle.syntax_form.specs.Depth.{bound_depth};
ghost use Rattle.expr_parser.specs.BoundView.{bound};

use crate::part::Part;
use py_tree::Expr;
use sqlite_items::Boxed;

/// An end of a slice, which may be left out.
#[derive(Drop)]
pub struct Bound {
    pub expr: Option<Boxed<Expr>>,
    pub depth: u32,
    pub ghost exact: { depth ≡ bound_depth (bound expr) },
}

impl Bound {
    /// None.
    pub fn left_out() -> Bound
        ensures tree { bound result.expr ≡ form.left_out }
        ensures depth { result.depth ≡ 0 }
    {
        Bound {
            expr: None,
            depth: 0,
        }
    }

    /// This expression.
    pub fn at(part: Part) -> Bound
        ensures tree { bound result.expr ≡ form.at (view part.expr) }
        ensures depth { result.depth ≡ part.depth }
    {
        Bound {
            expr: Some(part.expr),
            depth: part.depth,
        }
    }
}
