// The run of a block.
ghost use Rattle.std.specs.Prelude.{◌≡◌, ◌+◌, IfOk, IsTrue, OnErr, not};
ghost use Rattle.run_meaning.specs.Spending.{runs};
ghost use Rattle.py_eval.specs.Shows.{Shows, scene_of};
ghost use Rattle.py_tree.specs.Meant.{have_meaning};
ghost use Rattle.py_tree.specs.Names.{is_among};
ghost use Rattle.py_tree.specs.Scope.{bound};
ghost use Rattle.py_tree.specs.View.{view_block};
ghost use Rattle.py_value.specs.Maps.{where_name};

use crate::lines::run_lines;
use crate::meter::Halt;
use crate::scene::{Env, Scene};
use crate::steps::Steps;
use py_tree::Block;
use py_value::{ErrorKind, Lines, Memory, Value};
use std::alloc::Global;
use std::sync::ledger::Ledger;

/// How a run ends. Lines are numbered from 1.
#[derive(Clone, Copy, Debug, PartialEq, Eq)]
pub enum End {
    /// It ran to its end.
    Done,
    /// An error ended it.
    Fault { kind: ErrorKind, line: u32 },
    /// A charge was more than what was left of the budget.
    Spent { line: u32 },
}

/// What a run did: its end, its cost in steps, the lines that it printed, and the value of its last line where that is an
/// expression and the run is done.
#[derive(Debug, Drop)]
pub struct Ran {
    pub end: End,
    pub cost: u64,
    pub console: Lines,
    pub last: Option<Value>,
}

/// Runs a block, for which so many steps are left, and counts its cost. A name that the block doesn't bind keeps its binding,
/// also where the run isn't done. After `Memory` nothing is said of `env`.
pub fn run_block<L: Ledger>(
    alloc: Global,
    env: &mut Env,
    block: &Block,
    scene: &Scene,
    left: u64,
    steps: &mut Steps<L>,
) -> Result<Ran, Memory>
    requires { IsTrue (have_meaning (view_block block.now)) }
    ensures run { IfOk result
        (λ r. Shows r env.new left
        (runs (scene_of scene.now) env.old (view_block block.now) left)) }
    ensures kept { IfOk result
        (λ r. where_name (λ x. not (is_among x (bound (view_block block.now)))) env.new
        ≡ where_name (λ x. not (is_among x (bound (view_block block.now)))) env.old) }
    ensures steps { IfOk result (λ r. steps.new ≡ steps.old + r.cost) }
    ensures wanting { OnErr result (steps.new ≡ steps.old) }
{
    let mut rest = left;
    let ended = run_lines(alloc, block.items(), scene, env, &mut rest);
    let (end, cost, last) = match ended {
        Ok(last) => (End::Done, left - rest, last),
        Err(Halt::Fault { kind, line }) => (End::Fault { kind, line }, left - rest, None),
        Err(Halt::Spent { line }) => (End::Spent { line }, left, None),
        Err(Halt::Memory) => return Err(Memory),
    };
    steps.charge(cost);
    Ok(Ran {
        end,
        cost,
        console: Lines::of(Vec::new(alloc)),
        last,
    })
}
