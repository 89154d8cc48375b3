// Elements of the user interface.
ghost use Rattle.std.specs.Prelude.{◌≡◌, ℕ, ◌≤◌, [], IsTrue, codes};
ghost use Rattle.run_meaning.specs.Meaning.{read_module, element_of, calls_for, made_at};
ghost use Rattle.run_meaning.specs.Meaning as meaning;
ghost use Rattle.run_meaning.specs.Spending.{spend};
ghost use Rattle.py_eval.specs.Meets.{Meets, unit};
ghost use Rattle.py_eval.specs.Shows.{scene_of};
ghost use Rattle.py_tree.specs.Meant.{arguments_have_meaning};
ghost use Rattle.py_tree.specs.Names.{is_among};
ghost use Rattle.py_tree.specs.View.{view, view_arguments};
ghost use Rattle.py_value.specs.Maps.{look_up};

use crate::eval::eval_all;
use crate::meter::{Halt, charge, halt_at, unknown_form};
use crate::scene::{Env, Scene};
use py_tree::{Argument, Expr, Spelling, ui_kind};
use py_value::{ErrorKind, Kind, Lines, Text, Value, Values, copy, operand_charge};
use run_meaning::Binding;
use std::alloc::Global;
use ui_elements::{Args, Words, make};

/// The value of a call that is the right side of an assignment to these targets. No calls but those of `mo.ui` are part of the language
/// yet.
pub fn call_value(
    alloc: Global,
    targets: &[Spelling],
    callee: &Expr,
    arguments: &[Argument],
    scene: &Scene,
    env: &Env,
    line: u32,
    left: &mut u64,
) -> Result<Value, Halt>
    requires { IsTrue (arguments_have_meaning (view_arguments arguments.now)) }
    ensures meets { Meets (λ v. v) result left.new
        (spend (calls_for (scene_of scene.now) env.now line targets.now (view callee.now)
        (view_arguments arguments.now)) left.old []) }
    ensures used { left.new ≤ left.old }
{
    if let [name] = targets {
        if let Some(word) = ui_kind(callee) {
            if let Some(kind) = Kind::called(word) {
                return element(alloc, name.items(), kind, arguments, scene, env, line, left);
            }
        }
    }
    charge(left, 1, line)?;
    Err(unknown_form(line))
}

/// The present value of an element, which can't be had in the cell that creates it.
#[tactic(auto, using(crate::proofs::Present::seen))]
pub fn present_of(alloc: Global, scene: &Scene, value: &Value, line: u32) -> Result<Value, Halt>
    ensures { (left : ℕ)
        → Meets (λ v. v) result left
        (spend (meaning.present_of (scene_of scene.now) line value.now) left []) }
{
    let Value::Element(element) = value else {
        return Err(Halt::Fault {
            kind: ErrorKind::AttributeError,
            line,
        });
    };
    if is_one_of(element.name(), scene.own) {
        return Err(Halt::Fault {
            kind: ErrorKind::RuntimeError,
            line,
        });
    }
    Ok(copy(alloc, element.present())?)
}

// The element that `NAME = mo.ui.KIND(ARGUMENTS)` creates.
fn element(
    alloc: Global,
    name: &str,
    kind: Kind,
    arguments: &[Argument],
    scene: &Scene,
    env: &Env,
    line: u32,
    left: &mut u64,
) -> Result<Value, Halt>
    requires { IsTrue (arguments_have_meaning (view_arguments arguments.now)) }
    ensures meets { Meets (λ v. v) result left.new
        (spend (element_of (scene_of scene.now) env.now line name.now kind
        (view_arguments arguments.now)) left.old []) }
    ensures used { left.new ≤ left.old }
{
    charge(left, 1, line)?;
    read_module(env, line)?;
    let places = eval_all(alloc, arguments, scene, env, line, left)?;
    charge(left, operand_charge(places.as_slice()), line)?;
    make_element(alloc, name, kind, places, scene, line)
}

// An element of this kind, at the value that is kept for it where there is one.
fn make_element(
    alloc: Global,
    name: &str,
    kind: Kind,
    places: Vec<Value>,
    scene: &Scene,
    line: u32,
) -> Result<Value, Halt>
    ensures { (left : ℕ)
        → Meets (λ v. v) result left
        (spend (made_at (scene_of scene.now) line name.now kind places.items) left []) }
{
    let label = Text::copied(alloc, name)?;
    let args = Args {
        places: Values::of(places),
        words: Words::of(Vec::new(alloc)),
    };
    match make(alloc, kind, &label, &args) {
        Ok(mut element) => {
            if let Some(kept) = scene.present.get(name) {
                element.set_present(copy(alloc, kept)?);
            }
            Ok(Value::Element(element))
        }
        Err(fault) => Err(halt_at(fault, line)),
    }
}

// Whether `mo` is bound to the module.
fn read_module(env: &Env, line: u32) -> Result<(), Halt>
    ensures { (left : ℕ)
        → Meets unit result left (spend (read_module line (look_up (codes "mo") env.now)) left []) }
{
    match env.get("mo") {
        Some(Binding::Module) => Ok(()),
        Some(Binding::Plain(_)) => Err(unknown_form(line)),
        None => {
            Err(Halt::Fault {
                kind: ErrorKind::NameError,
                line,
            })
        }
    }
}

// Whether the name is one of these.
fn is_one_of(name: &Text, names: &Lines) -> bool
    ensures { result ≡ is_among name.now names.now }
{
    names
        .items()
        .iter()
        .any(|other| other.items() == name.items())
}
