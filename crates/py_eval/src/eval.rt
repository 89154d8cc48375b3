// The values of expressions.
ghost use Rattle.std.specs.Prelude.{◌≡◌, ℕ, ◌<◌, ◌≤◌, [], IsTrue, OnOk, codes};
ghost use Rattle.std.specs.Str.{bytes_eq};
ghost use Rattle.run_meaning.specs.Meaning.{read, value_of, values_after, result_at};
ghost use Rattle.run_meaning.specs.Meaning as meaning;
ghost use Rattle.run_meaning.specs.Spending.{spend};
ghost use Rattle.run_meaning.specs.Trace.{◌>>=◌ as ◌followed_by◌};
ghost use Rattle.py_eval.specs.Meets.{Meets};
ghost use Rattle.py_eval.specs.Shows.{scene_of};
ghost use Rattle.py_tree.specs.Meant.{has_meaning, arguments_have_meaning};
ghost use Rattle.py_tree.specs.Trees as trees;
ghost use Rattle.py_tree.specs.View.{view, view_arguments};
ghost use Rattle.py_value.specs.Maps.{look_up};
ghost use Rattle.py_value.specs.Whole.{sum_of};

use crate::elements::present_of;
use crate::meter::{Halt, charge, halt_at, unknown_form};
use crate::scene::{Env, Scene};
use py_tree::{Argument, Expr, Spelling, literal_int};
use py_value::{ErrorKind, Value, add, copy};
use run_meaning::Binding;
use std::alloc::Global;

/// The value of an expression on a line, for which so many steps are left.
pub fn eval(
    alloc: Global,
    tree: &Expr,
    scene: &Scene,
    env: &Env,
    line: u32,
    left: &mut u64,
) -> Result<Value, Halt>
    requires { IsTrue (has_meaning (view tree.now)) }
    ensures meets { Meets (λ v. v) result left.new
        (spend (value_of (scene_of scene.now) env.now line (view tree.now)) left.old []) }
    ensures used { left.new ≤ left.old }
    ensures paid { OnOk result (left.new < left.old) }
{
    charge(left, 1, line)?;
    match tree {
        Expr::Literal(token) => Ok(Value::Int(literal_int(token))),
        Expr::Name(name) => Ok(copy(alloc, bound_value(env, name.items(), line)?)?),
        Expr::Add(a, b) => {
            let x = eval(alloc, a.get(), scene, env, line, left)?;
            let y = eval(alloc, b.get(), scene, env, line, left)?;
            sum(&x, &y, line)
        }
        Expr::Attribute(base, name) => {
            if !is_value(name) {
                return Err(unknown_form(line));
            }
            if let Expr::Name(base) = base.get() {
                return present_of_name(alloc, base.items(), scene, env, line, left);
            }
            let value = eval(alloc, base.get(), scene, env, line, left)?;
            present_of(alloc, scene, &value, line)
        }
        _ => Err(unknown_form(line)),
    }
}

/// The values of arguments on a line, one after the other. Keywords have no meaning yet.
pub fn eval_all(
    alloc: Global,
    arguments: &[Argument],
    scene: &Scene,
    env: &Env,
    line: u32,
    left: &mut u64,
) -> Result<Vec<Value>, Halt>
    requires { IsTrue (arguments_have_meaning (view_arguments arguments.now)) }
    ensures meets { Meets (λ vs. vs.items) result left.new
        (spend (values_after [] (scene_of scene.now) env.now line (view_arguments arguments.now)) left.old []) }
    ensures used { left.new ≤ left.old }
{
    let mut values = Vec::new(alloc);
    for argument in arguments {
        let Argument::Positional(tree) = argument else {
            return Err(unknown_form(line));
        };
        values.push(eval(alloc, tree.get(), scene, env, line, left)?)?;
    }
    Ok(values)
}

// The value that a name is bound to.
fn bound_value<'a>(env: &'a Env, name: &str, line: u32) -> Result<&'a Value, Halt>
    ensures { (left : ℕ)
        → Meets (λ v. v.now) result left (spend (read line (look_up name.now env.now)) left []) }
{
    match env.get(name) {
        Some(Binding::Plain(value)) => Ok(value),
        Some(Binding::Module) => Err(unknown_form(line)),
        None => {
            Err(Halt::Fault {
                kind: ErrorKind::NameError,
                line,
            })
        }
    }
}

// The present value of the element that a name is bound to. The element is only read, and not copied.
fn present_of_name(
    alloc: Global,
    name: &str,
    scene: &Scene,
    env: &Env,
    line: u32,
    left: &mut u64,
) -> Result<Value, Halt>
    ensures meets { Meets (λ v. v) result left.new
        (spend (value_of (scene_of scene.now) env.now line
        (trees.name name.now) followed_by meaning.present_of
        (scene_of scene.now) line) left.old []) }
    ensures used { left.new ≤ left.old }
{
    charge(left, 1, line)?;
    present_of(alloc, scene, bound_value(env, name, line)?, line)
}

// Whether an attribute is `.value`.
fn is_value(name: &Spelling) -> bool
    ensures { result ≡ bytes_eq name.now (codes "value") }
{
    name.items() == "value"
}

// The sum of two values.
fn sum(left: &Value, right: &Value, line: u32) -> Result<Value, Halt>
    ensures { (rest : ℕ)
        → Meets (λ v. v) result rest (spend (result_at line (sum_of left.now right.now)) rest []) }
{
    match add(left, right) {
        Ok(value) => Ok(value),
        Err(fault) => Err(halt_at(fault, line)),
    }
}
