// Pieces of f-texts, with the depth of the deepest field, 0 where there is none.
ghost use Rattle.std.specs.Prelude.{◌≡◌, ◌∷◌, ◌++◌, [], max, option_map, IfOk};
ghost use Rattle.py_tree.specs.ExprView.{view};
ghost use Rattle.py_tree.specs.Expressions.{no_piece};
ghost use Rattle.py_tree.specs.FieldView.{view_convert, view_spec};
ghost use Rattle.syntax_form.specs.Depth.{piece_depth};
ghost use Rattle.expr_parser.specs.TextView.{seen_text, seen_texts, put_all, plain, filled};

use crate::part::Part;
use py_tree::{Convert, Expr, Spec, Spelling, TextPiece};
use sqlite_items::Boxed;
use std::alloc::{AllocError, Global};

/// Pieces.
#[derive(Drop)]
pub struct Texts {
    pub items: Vec<TextPiece>,
    pub depth: u32,
    pub ghost exact: { depth ≡ piece_depth (put_all (seen_texts items.items) no_piece) },
}

fn characters(spelling: Spelling) -> TextPiece
    ensures { seen_text result ≡ plain spelling }
{
    TextPiece::Chars(spelling)
}

fn field(value: Boxed<Expr>, convert: Convert, spec: Option<Spec>) -> TextPiece
    ensures { seen_text result ≡ filled (view value) (view_convert convert) (option_map view_spec spec) }
{
    TextPiece::Field {
        value,
        convert,
        spec,
    }
}

impl Texts {
    /// None.
    pub fn new(alloc: Global) -> Texts
        ensures items { seen_texts result.items.items ≡ [] }
        ensures depth { result.depth ≡ 0 }
    {
        Texts {
            items: Vec::new(alloc),
            depth: 0,
        }
    }

    /// These, and characters behind them.
    pub fn with_characters(self, spelling: Spelling) -> Result<Texts, AllocError>
        ensures items { IfOk result (λ ts. seen_texts ts.items.items ≡ seen_texts self.items.items ++ plain spelling ∷ []) }
        ensures depth { IfOk result (λ ts. ts.depth ≡ self.depth) }
    {
        let depth = self.depth;
        let mut items = self.items;
        items.push(characters(spelling))?;
        Ok(Texts { items, depth })
    }

    /// These, and a field behind them.
    pub fn with_field(
        self,
        value: Part,
        convert: Convert,
        spec: Option<Spec>,
    ) -> Result<Texts, AllocError>
        ensures items { IfOk result (λ ts. seen_texts ts.items.items
            ≡ seen_texts self.items.items ++ filled (view value.expr) (view_convert convert) (option_map view_spec spec) ∷ []) }
        ensures depth { IfOk result (λ ts. ts.depth ≡ max self.depth value.depth) }
    {
        let depth = self.depth.max(value.depth);
        let mut items = self.items;
        items.push(field(value.expr, convert, spec))?;
        Ok(Texts { items, depth })
    }
}
