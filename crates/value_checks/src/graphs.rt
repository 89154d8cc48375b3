// Small notebooks: a cell is given by the name that it binds and the names that it adds up.
use crate::trees::{added, named, number, spelled};
use cell_graph::{defs, notebook, refs};
use py_tree::{Block, CellCode, Expr, Line, Spelling, Spellings, Stmt};
use py_value::{Lines, Memory, Text};
use sqlite_items::Boxed;
use std::alloc::Global;
use std::test::Fail;

type Row<'a> = (&'a str, &'a [&'a str]);

// `1`, and these names added to it
fn one_and(alloc: Global, names: &[&str]) -> Result<Boxed<Expr>, Memory> {
    let mut tree = number(alloc, "1")?;
    for name in names {
        let name = named(alloc, *name)?;
        tree = added(alloc, tree, name)?;
    }
    Ok(tree)
}

fn assignment_line(
    alloc: Global,
    targets: Vec<Spelling>,
    value: Boxed<Expr>,
) -> Result<Boxed<Line>, Memory> {
    Ok(Boxed::new(alloc, Line::Assign(Spellings::of(targets), value))?)
}

fn assignment(alloc: Global, row: Row) -> Result<Stmt, Memory> {
    let mut targets = Vec::new(alloc);
    targets.push(spelled(alloc, row.0)?)?;
    Ok(Stmt {
        number: 1,
        line: assignment_line(alloc, targets, one_and(alloc, row.1)?)?,
        block: Block::of(Vec::new(alloc)),
    })
}

// a cell with a line for each row
fn cell(alloc: Global, rows: &[Row]) -> Result<CellCode, Memory> {
    let mut stmts = Vec::new(alloc);
    for row in rows {
        stmts.push(assignment(alloc, *row)?)?;
    }
    Ok(CellCode {
        line: 1,
        body: Block::of(stmts),
    })
}

// a cell for each row
fn cells(alloc: Global, rows: &[Row]) -> Result<Vec<CellCode>, Memory> {
    let mut all = Vec::new(alloc);
    for row in rows {
        all.push(cell(alloc, &[*row])?)?;
    }
    Ok(all)
}

fn are(names: &Lines, wanted: &[&str]) -> bool {
    let given = names.items();
    if given.len() != wanted.len() {
        return false;
    }
    for i in 0..given.len() {
        if given[i].items() != wanted[i] {
            return false;
        }
    }
    true
}

#[test]
fn names_of_a_cell(rt: HostRuntime) -> Result<(), Fail> {
    let cell = cell(
        rt.alloc(),
        &[
            ("_t", &["b", "a"]),
            ("x", &["_t", "len", "b"]),
            ("y", &["x"]),
            ("x", &["c", "y"]),
        ],
    )?;
    assert!(rt; are(&defs(rt.alloc(), &cell)?, &["x", "y"]));
    assert!(rt; are(&refs(rt.alloc(), &cell)?, &["b", "a", "c"]));
    Ok(())
}

#[test]
fn orders_cells(rt: HostRuntime) -> Result<(), Fail> {
    let chain: &[Row] = &[("c", &["b"]), ("b", &["a"]), ("a", &[])];
    let diamond: &[Row] = &[("d", &["c", "b"]), ("b", &["a"]), ("c", &["a"]), ("a", &[])];
    for (rows, order, parents) in [
        (chain, [2, 1, 0].as_slice(), [1].as_slice()),
        (diamond, &[3, 1, 2, 0], &[1, 2]),
    ] {
        let cells = cells(rt.alloc(), rows)?;
        assert!(rt; 0 < cells.len() && cells.len() < 10);
        match notebook(rt.alloc(), cells) {
            Ok(nb) => {
                assert!(rt; 0 < nb.cells().len());
                assert_eq!(rt; nb.order(), order);
                assert_eq!(rt; nb.parents(0), parents);
                assert!(rt; are(nb.defs_of(0), &[rows[0].0]));
                assert!(rt; are(nb.refs_of(0), rows[0].1));
            }
            Err(_) => panic!(rt; "refused"),
        }
    }
    Ok(())
}

// these names
fn lines(alloc: Global, names: &[&str]) -> Result<Lines, Memory> {
    let mut all = Vec::new(alloc);
    for name in names {
        all.push(Text::copied(alloc, *name)?)?;
    }
    Ok(Lines::of(all))
}

#[test]
fn runs_cells_again(rt: HostRuntime) -> Result<(), Fail> {
    let diamond: &[Row] = &[("d", &["c", "b"]), ("b", &["a"]), ("c", &["a"]), ("a", &[])];
    let chain: &[Row] = &[("c", &["b"]), ("b", &["a"]), ("a", &[]), ("z", &[])];
    let two: &[Row] = &[
        ("p", &["y"]),
        ("q", &["x"]),
        ("r", &["q"]),
        ("s", &["p", "x"]),
    ];
    for (rows, names, wanted) in [
        (diamond, ["a"].as_slice(), [1, 2, 0].as_slice()),
        (diamond, &["c"], &[0]),
        (chain, &["a"], &[1, 0]),
        (chain, &["a", "b"], &[1, 0]),
        (chain, &["z", "c", "none"], &[]),
        (two, &["x"], &[1, 2, 3]),
        (two, &["y", "q"], &[0, 2, 3]),
        (two, &[], &[]),
    ] {
        let cells = cells(rt.alloc(), rows)?;
        assert!(rt; cells.len() < 10);
        let names = lines(rt.alloc(), names)?;
        match notebook(rt.alloc(), cells) {
            Ok(nb) => assert_eq!(rt; nb.rerun(rt.alloc(), &names)?.items(), wanted),
            Err(_) => panic!(rt; "refused"),
        }
    }
    Ok(())
}
