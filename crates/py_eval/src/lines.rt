// The lines of a block.
ghost use Rattle.std.specs.Prelude.{◌≡◌, ℕ, ◌≤◌, [], IsTrue, not};
ghost use Rattle.run_meaning.specs.Meaning.{bind, right_of, head_of, block_of};
ghost use Rattle.run_meaning.specs.Meaning as meaning;
ghost use Rattle.run_meaning.specs.Spending.{spend};
ghost use Rattle.py_eval.specs.Meets.{Meets};
ghost use Rattle.py_eval.specs.Shows.{scene_of};
ghost use Rattle.py_tree.specs.Meant.{has_meaning, head_has_meaning, have_meaning};
ghost use Rattle.py_tree.specs.Names.{is_among};
ghost use Rattle.py_tree.specs.Scope.{head_binds, bound};
ghost use Rattle.py_tree.specs.View.{view, view_head, view_stmts};
ghost use Rattle.py_value.specs.Maps.{where_name};

use crate::elements::call_value;
use crate::eval::eval;
use crate::meter::{Halt, charge, unknown_form};
use crate::scene::{Env, Scene};
use py_tree::{Expr, Line, Spelling, Stmt};
use py_value::{ErrorKind, Text, Value};
use run_meaning::Binding;
use std::alloc::Global;

/// Runs lines in order, and gives the value of the last one where it is an expression.
pub fn run_lines(
    alloc: Global,
    stmts: &[Stmt],
    scene: &Scene,
    env: &mut Env,
    left: &mut u64,
) -> Result<Option<Value>, Halt>
    requires { IsTrue (have_meaning (view_stmts stmts.now)) }
    ensures meets { Meets (λ last. record { last = last; env = env.new }) result left.new
        (spend (block_of (scene_of scene.now) env.old (view_stmts stmts.now)) left.old []) }
    ensures kept { where_name (λ x. not (is_among x (bound (view_stmts stmts.now)))) env.new
        ≡ where_name (λ x. not (is_among x (bound (view_stmts stmts.now)))) env.old }
    ensures used { left.new ≤ left.old }
{
    let mut last = None;
    for stmt in stmts {
        charge(left, 1, stmt.number)?;
        last = run_line(alloc, stmt.line.get(), stmt.number, scene, env, left)?;
    }
    Ok(last)
}

// Runs a line after its own charge, and gives its value where it is an expression.
fn run_line(
    alloc: Global,
    line: &Line,
    number: u32,
    scene: &Scene,
    env: &mut Env,
    left: &mut u64,
) -> Result<Option<Value>, Halt>
    requires { IsTrue (head_has_meaning (view_head line.now)) }
    ensures meets { Meets (λ last. record { last = last; env = env.new }) result left.new
        (spend (head_of (scene_of scene.now) env.old number (view_head line.now)) left.old []) }
    ensures kept { where_name (λ x. not (is_among x (head_binds (view_head line.now)))) env.new
        ≡ where_name (λ x. not (is_among x (head_binds (view_head line.now)))) env.old }
    ensures used { left.new ≤ left.old }
{
    match line {
        Line::Value(tree) => Ok(Some(eval(alloc, tree.get(), scene, env, number, left)?)),
        Line::Assign(targets, tree) => {
            let names = targets.items();
            let value = right_side(alloc, names, tree.get(), scene, env, number, left)?;
            bind_targets(alloc, names, value, number, env)?;
            Ok(None)
        }
        Line::ImportMo => {
            let name = Text::copied(alloc, "mo")?;
            env.put(name, Binding::Module)?;
            Ok(None)
        }
        _ => Err(unknown_form(number)),
    }
}

// The value of the right side of an assignment.
fn right_side(
    alloc: Global,
    targets: &[Spelling],
    tree: &Expr,
    scene: &Scene,
    env: &Env,
    line: u32,
    left: &mut u64,
) -> Result<Value, Halt>
    requires { IsTrue (has_meaning (view tree.now)) }
    ensures meets { Meets (λ v. v) result left.new
        (spend (right_of (scene_of scene.now) env.now line targets.now
        (view tree.now)) left.old []) }
    ensures used { left.new ≤ left.old }
{
    match tree {
        Expr::Call {
            callee,
            arguments,
            ..
        } => {
            let arguments = arguments.items();
            call_value(
                alloc,
                targets,
                callee.get(),
                arguments,
                scene,
                env,
                line,
                left,
            )
        }
        _ => eval(alloc, tree, scene, env, line, left),
    }
}

// Binds the target of an assignment.
fn bind_targets(
    alloc: Global,
    targets: &[Spelling],
    value: Value,
    line: u32,
    env: &mut Env,
) -> Result<(), Halt>
    ensures meets { (left : ℕ)
        → Meets (λ _. env.new) result left (spend (bind line targets.now value env.old) left []) }
    ensures kept { where_name (λ x. not (is_among x targets.now)) env.new
        ≡ where_name (λ x. not (is_among x targets.now)) env.old }
{
    let [target] = targets else {
        return Err(Halt::Fault {
            kind: unpacking_fault(&value),
            line,
        });
    };
    let name = Text::copied(alloc, target.items())?;
    env.put(name, Binding::Plain(value))?;
    Ok(())
}

// Why a value isn't taken apart for several targets.
fn unpacking_fault(value: &Value) -> ErrorKind
    ensures { result ≡ meaning.unpacking_fault value.now }
{
    match value {
        Value::Text(_) | Value::List(_) | Value::Tuple(_) | Value::Dict(_) => ErrorKind::Subset,
        _ => ErrorKind::TypeError,
    }
}
