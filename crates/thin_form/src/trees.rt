// Trees of terms, sums, sliders and lines.
ghost use Rattle.std.specs.Prelude.{◌≡◌, false, [], ◌∷◌, IfOk};
ghost use Rattle.thin_form.specs.Sliders.{slider, maker};
ghost use Rattle.thin_form.specs.Sums as reading;
ghost use Rattle.py_tree.specs.Trees as pure;
ghost use Rattle.py_tree.specs.View.{view, view_arguments, view_head};

use py_tree::{Argument, Expr, Line, Row, Spelling, Spellings, Token, TokenKind};
use py_value::Memory;
use sqlite_items::Boxed;
use std::alloc::Global;

pub fn spelling(alloc: Global, word: &str) -> Result<Spelling, Memory>
    ensures { IfOk result (λ s. s ≡ word.now) }
{
    Ok(Spelling::of(String::from_str(alloc, word)?))
}

pub fn name(alloc: Global, word: &str) -> Result<Boxed<Expr>, Memory>
    ensures { IfOk result (λ e. view e ≡ pure.name word.now) }
{
    Ok(Boxed::new(alloc, Expr::Name(spelling(alloc, word)?))?)
}

pub fn numeral(alloc: Global, word: &str) -> Result<Boxed<Expr>, Memory>
    ensures { IfOk result (λ e. view e ≡ reading.numeral word.now) }
{
    let token = Token {
        kind: TokenKind::Number,
        spelling: spelling(alloc, word)?,
    };
    Ok(Boxed::new(alloc, Expr::Literal(token))?)
}

// The sum of the two.
pub fn sum(alloc: Global, left: Boxed<Expr>, right: Boxed<Expr>) -> Result<Boxed<Expr>, Memory>
    ensures { IfOk result (λ e. view e ≡ pure.binary pure.Add (view left) (view right)) }
{
    Ok(Boxed::new(alloc, Expr::Add(left, right))?)
}

// `BASE.WORD`
pub fn attribute(alloc: Global, base: Boxed<Expr>, word: &str) -> Result<Boxed<Expr>, Memory>
    ensures { IfOk result (λ e. view e ≡ pure.attribute (view base) word.now) }
{
    let part = spelling(alloc, word)?;
    Ok(Boxed::new(alloc, Expr::Attribute(base, part))?)
}

// `mo.ui.slider(LOW, HIGH)`
pub fn slider(alloc: Global, low: &str, high: &str) -> Result<Boxed<Expr>, Memory>
    ensures { IfOk result (λ e. view e ≡ slider (record { low = low.now; high = high.now })) }
{
    let mut bounds = Vec::new(alloc);
    bounds.push(Argument::Positional(numeral(alloc, low)?))?;
    bounds.push(Argument::Positional(numeral(alloc, high)?))?;
    call(alloc, maker(alloc)?, bounds)
}

// `CALLEE(ARGUMENTS)`
fn call(alloc: Global, callee: Boxed<Expr>, arguments: Vec<Argument>) -> Result<Boxed<Expr>, Memory>
    ensures { IfOk result
        (λ e. view e ≡ pure.call (view callee) (view_arguments arguments.items) false) }
{
    let call = Expr::Call {
        callee,
        arguments: Row::of(arguments),
        comma: false,
    };
    Ok(Boxed::new(alloc, call)?)
}

// `mo.ui.slider`
fn maker(alloc: Global) -> Result<Boxed<Expr>, Memory>
    ensures { IfOk result (λ e. view e ≡ maker) }
{
    let ui = attribute(alloc, name(alloc, "mo")?, "ui")?;
    attribute(alloc, ui, "slider")
}

// A line that is an expression.
pub fn value_line(alloc: Global, value: Boxed<Expr>) -> Result<Boxed<Line>, Memory>
    ensures { IfOk result (λ l. view_head l ≡ pure.value (view value)) }
{
    line(alloc, Line::Value(value))
}

// `NAME = VALUE`
pub fn assignment(alloc: Global, name: Spelling, value: Boxed<Expr>) -> Result<Boxed<Line>, Memory>
    ensures { IfOk result (λ l. view_head l ≡ pure.assign (name ∷ []) (view value)) }
{
    let mut targets = Vec::new(alloc);
    targets.push(name)?;
    line(alloc, Line::Assign(Spellings::of(targets), value))
}

// `import marimo as mo`
pub fn import(alloc: Global) -> Result<Boxed<Line>, Memory>
    ensures { IfOk result (λ l. view_head l ≡ pure.import_mo) }
{
    line(alloc, Line::ImportMo)
}

fn line(alloc: Global, wrapped: Line) -> Result<Boxed<Line>, Memory>
    ensures { IfOk result (λ l. l ≡ wrapped) }
{
    Ok(Boxed::new(alloc, wrapped)?)
}
