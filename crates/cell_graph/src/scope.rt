// The names that code binds and reads at cell scope, each as often as it stands there.
ghost use Rattle.std.specs.Prelude.{◌≡◌, ◌++◌, ◌∷◌, [], OnOk};
ghost use Rattle.cell_graph.specs.Texts.{texts};
ghost use Rattle.py_tree.specs.Scope as scope;
ghost use Rattle.py_tree.specs.View.{view, view_block, view_head};

use py_tree::{Argument, Block, Expr, Line, Spelling};
use py_value::Memory;

// Adds every name that lines and their blocks bind at cell scope.
pub(crate) fn add_bound<'a>(names: &mut Vec<&'a str>, block: &'a Block) -> Result<(), Memory>
    ensures { OnOk result
        (texts names.new.items ≡ texts names.old.items ++ scope.bound (view_block block.now)) }
{
    for stmt in block.items() {
        add_line_binds(names, stmt.line.get())?;
        add_bound(names, &stmt.block)?;
    }
    Ok(())
}

// Adds every name that lines and their blocks read at cell scope.
pub(crate) fn add_read<'a>(names: &mut Vec<&'a str>, block: &'a Block) -> Result<(), Memory>
    ensures { OnOk result
        (texts names.new.items ≡ texts names.old.items ++ scope.read_names (view_block block.now)) }
{
    for stmt in block.items() {
        add_line_reads(names, stmt.line.get())?;
        add_read(names, &stmt.block)?;
    }
    Ok(())
}

// Adds the names that an expression reads.
fn add_reads<'a>(names: &mut Vec<&'a str>, expr: &'a Expr) -> Result<(), Memory>
    ensures { OnOk result
        (texts names.new.items ≡ texts names.old.items ++ scope.reads (view expr.now)) }
{
    match expr {
        Expr::Name(name) => add_name(names, name),
        Expr::Add(left, right) => {
            add_reads(names, left.get())?;
            add_reads(names, right.get())
        }
        Expr::Attribute(base, _) => add_reads(names, base.get()),
        Expr::Call {
            callee,
            arguments,
            ..
        } => {
            add_reads(names, callee.get())?;
            for argument in arguments.items() {
                match argument {
                    Argument::Positional(value) => add_reads(names, value.get())?,
                    Argument::Keyword(_, value) => add_reads(names, value.get())?,
                }
            }
            Ok(())
        }
        _ => Ok(()),
    }
}

// Adds one name.
fn add_name<'a>(names: &mut Vec<&'a str>, name: &'a Spelling) -> Result<(), Memory>
    ensures { OnOk result (texts names.new.items ≡ texts names.old.items ++ name.now ∷ []) }
{
    names.push(name.items())?;
    Ok(())
}

// Adds the names that a line reads.
fn add_line_reads<'a>(names: &mut Vec<&'a str>, line: &'a Line) -> Result<(), Memory>
    ensures { OnOk result
        (texts names.new.items ≡ texts names.old.items ++ scope.head_reads (view_head line.now)) }
{
    match line {
        Line::Value(value) => add_reads(names, value.get()),
        Line::Assign(_, value) => add_reads(names, value.get()),
        _ => Ok(()),
    }
}

// Adds the names that a line binds.
fn add_line_binds<'a>(names: &mut Vec<&'a str>, line: &'a Line) -> Result<(), Memory>
    ensures { OnOk result
        (texts names.new.items ≡ texts names.old.items ++ scope.head_binds (view_head line.now)) }
{
    match line {
        Line::Assign(targets, _) => {
            for target in targets.items() {
                add_name(names, target)?;
            }
        }
        Line::ImportMo => names.push("mo")?,
        _ => {}
    }
    Ok(())
}
