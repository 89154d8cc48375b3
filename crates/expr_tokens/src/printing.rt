// The tokens of an expression.
ghost use Rattle.std.specs.Prelude.{◌≡◌, ◌++◌, ◌∷◌, [], map, option_map, IfOk, OnOk};
ghost use Rattle.lexical_form.specs.Tokens as pure;
ghost use Rattle.py_tokens.specs.TokenView.{token_list, view_piece_list, view_token, view_tokens};
ghost use Rattle.py_tokens.specs.TokenView.{view_piece as view_token_piece};
ghost use Rattle.py_tree.specs.ExprView.{view, view_piece, view_pieces};
ghost use Rattle.py_tree.specs.Expressions.{Pieces};
ghost use Rattle.py_tree.specs.FieldView.{view_convert, view_spec};
ghost use Rattle.syntax_form.specs.Printing.{token_pieces, tokens};
ghost use Rattle.expr_tokens.specs.Parts.{part_tokens};

use crate::made;
use crate::part::Part;
use crate::parts::parts;
use py_tokens::{Piece, Token, Tokens};
use py_tree::{Convert, Expr, Spec, TextPiece};
use std::alloc::{AllocError, Global};

/// The tokens that spell an expression (Python language reference, section 6). It fails only for want of memory.
#[cycle(print)]
pub fn tokens_of_expr(alloc: Global, expr: &Expr) -> Result<Tokens, AllocError>
    ensures tokens { IfOk result (λ ts. map view_token (token_list ts) ≡ tokens (view expr.now)) }
    ensures view { IfOk result (λ ts. view_tokens ts ≡ pure.tokens_of (tokens (view expr.now))) }
{
    let mut printed = Vec::new(alloc);
    push_expr(alloc, &mut printed, expr)?;
    Ok(Tokens::of(printed))
}

// Appends the tokens of an expression.
#[cycle(print)]
fn push_expr(alloc: Global, printed: &mut Vec<Token>, expr: &Expr) -> Result<(), AllocError>
    ensures { OnOk result (map view_token printed.new.items ≡ map view_token printed.old.items ++ tokens (view expr.now)) }
{
    let inside = parts(alloc, expr)?;
    for part in &inside {
        push_part(alloc, printed, *part)?;
    }
    Ok(())
}

// Appends the tokens of a part.
#[cycle(print)]
fn push_part(alloc: Global, printed: &mut Vec<Token>, part: Part) -> Result<(), AllocError>
    ensures { OnOk result (map view_token printed.new.items ≡ map view_token printed.old.items ++ part_tokens part.entry) }
{
    match part {
        Part::Word(text) => push_token(printed, made::word(alloc, text)?),
        Part::Mark(text) => push_token(printed, made::mark(alloc, text)?),
        Part::Name(spelling) => push_token(printed, made::name(alloc, spelling)?),
        Part::Literal(token) => push_token(printed, made::literal(alloc, token)?),
        Part::FText(spelling, pieces) => {
            let pieces = pieces_of(alloc, pieces)?;
            push_token(printed, made::f_text(alloc, spelling, pieces)?)
        }
        Part::Inner(expr) => push_expr(alloc, printed, expr),
    }
}

fn push_token(printed: &mut Vec<Token>, token: Token) -> Result<(), AllocError>
    ensures { OnOk result (map view_token printed.new.items ≡ map view_token printed.old.items ++ view_token token ∷ []) }
{
    printed.push(token)?;
    Ok(())
}

// The pieces of an f-text's token.
#[cycle(print)]
fn pieces_of(alloc: Global, pieces: &[TextPiece]) -> Result<Vec<Piece>, AllocError>
    ensures { IfOk result (λ ps. view_piece_list ps.items ≡ token_pieces (view_pieces pieces.now)) }
{
    let mut printed = Vec::new(alloc);
    for piece in pieces {
        printed.push(piece_of(alloc, piece)?)?;
    }
    Ok(printed)
}

// A piece of an f-text's token: a field has the tokens of its expression.
#[cycle(print)]
fn piece_of(alloc: Global, piece: &TextPiece) -> Result<Piece, AllocError>
    ensures { IfOk result (λ p. (rest : Pieces) → token_pieces (view_piece piece.now rest)
        ≡ pure.piece (view_token_piece p) (token_pieces rest)) }
{
    match piece {
        TextPiece::Chars(characters) => Ok(Piece::Chars(made::copied(alloc, characters)?)),
        TextPiece::Field {
            value,
            convert,
            spec,
        } => Ok(field_piece(tokens_of_expr(alloc, value.get())?, *convert, *spec)),
    }
}

fn field_piece(tokens: Tokens, convert: Convert, spec: Option<Spec>) -> Piece
    ensures { view_token_piece result ≡ pure.field (view_tokens tokens) (view_convert convert) (option_map view_spec spec) }
{
    Piece::Field {
        tokens,
        convert,
        spec,
    }
}
