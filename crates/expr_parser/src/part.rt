// Expressions with their depths.
ghost use Rattle.std.specs.Prelude.{◌≡◌};
ghost use Rattle.py_tree.specs.ExprView.{view};
ghost use Rattle.syntax_form.specs.Depth.{depth as depth_of};

use py_tree::Expr;
use sqlite_items::Boxed;

/// An expression and its depth.
#[derive(Drop)]
pub struct Part {
    pub expr: Boxed<Expr>,
    pub depth: u32,
    pub ghost exact: { depth ≡ depth_of (view expr) },
}
