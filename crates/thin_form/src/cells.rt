// The cells of a file of the thin form.
ghost use Rattle.std.specs.Prelude.{◌≡◌, IsTrue, not, flat_map, Ok, None, MatchOption, IfErr, IfOk};
ghost use Rattle.thin_form.specs.SliderNames.{as_elements};
ghost use Rattle.thin_form.specs.FileParts.{BeginsWith, HasBody, HasCell, HasCells, ReadsBody, ReadsCell, ReadsCells};
ghost use Rattle.thin_form.specs.Places.{Between, Body, Definition, Fits, IsBetween, IsNoNext, LeadsPastCells, Place, StopsAt, place_after};
ghost use Rattle.form_meaning.specs.Thin.{is_empty, decorator_line, cell_lines, is_whole};
ghost use Rattle.py_tree.specs.View.{view_cell, view_cells, view_stmts};

use crate::reader::Reader;
use crate::slider_names::SliderNames;
use crate::thin_file::ThinFault;
use py_tree::{Block, CellCode, Stmt};
use std::alloc::Global;

// Reads cells, as many as come.
pub fn read_cells(
    alloc: Global,
    reader: &mut Reader,
    elements: &SliderNames,
) -> Result<Vec<CellCode>, ThinFault>
    ensures found { IfOk result
        (λ v. HasCells (as_elements elements.now) reader.old reader.new (view_cells v.items)) }
    ensures only { ReadsCells (as_elements elements.now) reader.old reader.new result }
    ensures led { IfOk result
        (λ v. LeadsPastCells (as_elements elements.now)
        (flat_map cell_lines (view_cells v.items)) reader.new.bytes) }
    ensures stuck { IfErr result (λ e. StopsAt (as_elements elements.now) reader.old Between e) }
{
    let mut cells = Vec::new(alloc);
    while let Some(next) = read_cell(alloc, reader, elements)? {
        cells.push(next)?;
    }
    Ok(cells)
}

// Reads the cell that comes next. None where no decorator comes.
fn read_cell(
    alloc: Global,
    reader: &mut Reader,
    elements: &SliderNames,
) -> Result<Option<CellCode>, ThinFault>
    ensures found { IfOk result
        (λ o. MatchOption o (reader.new ≡ reader.old)
        (λ c. HasCell (as_elements elements.now) reader.old reader.new (view_cell c))) }
    ensures only { ReadsCell (as_elements elements.now) reader.old reader.new result }
    ensures ends { (BeginsWith 64 reader.old.bytes → ⊥) → result ≡ Ok None }
    ensures between { IfOk result
        (λ o. MatchOption o (IsNoNext (λ line. line ≡ decorator_line) reader.old.bytes)
        (λ c. IsBetween (as_elements elements.now)
        (place_after (view_cell c).body) reader.new.bytes)) }
    ensures stuck { IfErr result
        (λ e. (at : Place) → Fits (as_elements elements.now) at decorator_line Definition
        → StopsAt (as_elements elements.now) reader.old at e) }
{
    let line = reader.line();
    if !reader.skip(b"@app.cell") {
        return Ok(None);
    }
    reader.expect(b"def _():")?;
    let body = read_body(alloc, reader, elements)?;
    Ok(Some(CellCode {
        line,
        body: Block::of(body),
    }))
}

// Reads a body, which has one line or more.
fn read_body(
    alloc: Global,
    reader: &mut Reader,
    elements: &SliderNames,
) -> Result<Vec<Stmt>, ThinFault>
    ensures found { IfOk result
        (λ v. HasBody (as_elements elements.now) reader.old reader.new (view_stmts v.items)) }
    ensures some { IfOk result (λ v. IsTrue (not (is_empty (view_stmts v.items)))) }
    ensures whole { IfOk result (λ v. IsTrue (is_whole (view_stmts v.items))) }
    ensures only { ReadsBody (as_elements elements.now) reader.old reader.new result }
    ensures between { IfOk result
        (λ v. IsBetween (as_elements elements.now)
        (place_after (view_stmts v.items)) reader.new.bytes) }
    ensures stuck { IfErr result (λ e. StopsAt (as_elements elements.now) reader.old Body e) }
{
    let mut stmts = Vec::new(alloc);
    while let Some(stmt) = reader.read_stmt(alloc, elements, stmts.is_empty())? {
        stmts.push(stmt)?;
    }
    if stmts.is_empty() {
        return Err(reader.fault());
    }
    Ok(stmts)
}
