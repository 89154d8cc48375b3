// What is left of a file of the thin form.
ghost use Rattle.std.specs.Prelude.{◌≡◌, ◌⊎◌, ℕ, ◌+◌, ◌≤◌, ◌==◌, false, cond, IsTrue, MatchBool, List, [], ◌∷◌, ◌++◌, length, codes, Ok, None, Some, MatchOption, option_map, IfErr, IfOk, IfSome, OnErr, OnOk};
ghost use Rattle.std.specs.Option.{IfNone};
ghost use Rattle.thin_form.specs.SliderNames.{as_elements};
ghost use Rattle.thin_form.specs.FileParts.{HasStmt, IsIndented, IsPast, IsPlaced, ReadsLine};
ghost use Rattle.py_tree.specs.TextLines.{is_unbroken, text_of};
ghost use Rattle.thin_form.specs.Places.{AfterBody, Body, IsBody, IsNoNext, StopsAt};
ghost use Rattle.form_meaning.specs.Thin.{is_line, head_text};
ghost use Rattle.form_meaning.specs.Thin as thin;
ghost use Rattle.py_tree.specs.Trees.{Head};
ghost use Rattle.py_tree.specs.View.{view_head, view_stmt};

use crate::line::{read_body_line, stands_alone};
use crate::slider_names::SliderNames;
use crate::thin_file::ThinFault;
use py_tree::{Block, Line, Stmt, whole_line};
use py_value::Memory;
use sqlite_items::Boxed;
use std::alloc::Global;
use std::marker::Model;

// A place in a file.
#[derive(Drop)]
pub struct Reader<'a> {
    // the bytes that are left
    bytes: &'a [u8],
    // the number of the line with which they begin
    line: u32,
    // how many more body lines there may be
    room: u32,
}

impl<'a> Model for Reader<'a> {
    ghost use Rattle.std.specs.Prelude.{◌+◌, ◌≤◌, length};
    ghost use Rattle.thin_form.specs.FileParts.{At};

    ghost Value = { At };

    ghost view = { λ r. record { bytes = r.bytes.now; line = r.line; room = r.room } };

    ghost invariant = { λ r. r.line + length r.bytes.now ≤ 1048577 };
}

impl<'a> Reader<'a> {
    // The start of a file.
    pub fn new(bytes: &'a [u8], room: u32) -> Reader<'a>
        requires { length bytes.now ≤ 1048576 }
        ensures { result ≡ record { bytes = bytes.now; line = 1; room = room } }
    {
        Reader {
            bytes,
            line: 1,
            room,
        }
    }

    pub fn line(&self) -> u32
        ensures { result ≡ self.now.line }
    {
        self.line
    }

    pub fn is_at_end(&self) -> bool
        ensures { result ≡ (length self.now.bytes == 0) }
    {
        self.bytes.is_empty()
    }

    // The line that comes next doesn't fit.
    pub fn fault(&self) -> ThinFault
        ensures { result ≡ ThinFault.Thin self.now.line }
    {
        ThinFault::Thin { line: self.line }
    }

    // Passes over the line that comes next where it is this one.
    pub fn skip(&mut self, line: &[u8]) -> bool
        ensures { MatchBool result (IsPast self.old self.new (line.now ∷ []) 0)
            ((self.new ≡ self.old)
            × ((rest : List ℕ) → self.old.bytes ≡ text_of (line.now ∷ []) ++ rest → ⊥)) }
    {
        match after_line(self.bytes, line) {
            Some(rest) => {
                self.bytes = rest;
                self.line += 1;
                true
            }
            None => false,
        }
    }

    // Passes over the line that comes next, which has to be this one.
    pub fn expect(&mut self, line: &[u8]) -> Result<(), ThinFault>
        ensures found { OnOk result (IsPast self.old self.new (line.now ∷ []) 0) }
        ensures line { IfErr result (λ e. e ≡ ThinFault.Thin self.old.line) }
        ensures refused { OnErr result
            ((rest : List ℕ) → self.old.bytes ≡ text_of (line.now ∷ []) ++ rest → ⊥) }
    {
        if self.skip(line) {
            Ok(())
        } else {
            Err(self.fault())
        }
    }

    // Reads the line of a body that comes next, the first one or a later one. None where no whole line with an indent comes.
    pub fn read_stmt(
        &mut self,
        alloc: Global,
        elements: &SliderNames,
        first: bool,
    ) -> Result<Option<Stmt>, ThinFault>
        ensures found { IfOk result
            (λ o. MatchOption o (self.new ≡ self.old)
            (λ s. HasStmt (as_elements elements.now) first self.old self.new (view_stmt s))) }
        ensures only { ReadsLine (as_elements elements.now) first self.old self.new result }
        ensures ends { (IsIndented self.old.bytes → ⊥) → result ≡ Ok None }
        ensures none { IfOk result
            (λ o. IfNone o (IsNoNext (IsBody (as_elements elements.now)) self.old.bytes)) }
        ensures stuck { IfErr result
            (λ e. StopsAt (as_elements elements.now) self.old (cond first Body AfterBody) e) }
    {
        let Some((text, rest)) = indented(self.bytes) else {
            return Ok(None);
        };
        if self.room == 0 {
            return Err(self.fault());
        }
        let Some(line) = placed_line(alloc, text, rest, elements, first)? else {
            return Err(self.fault());
        };
        let stmt = Stmt {
            number: self.line,
            line,
            block: Block::of(Vec::new(alloc)),
        };
        self.bytes = rest;
        self.line += 1;
        self.room -= 1;
        Ok(Some(stmt))
    }
}

// The line that the text spells, with these bytes behind it. None where it spells none that may stand there.
fn placed_line(
    alloc: Global,
    text: &[u8],
    rest: &[u8],
    elements: &SliderNames,
    first: bool,
) -> Result<Option<Boxed<Line>>, Memory>
    ensures found { IfOk result
        (λ o. IfSome o
        (λ l. IsTrue (is_line (as_elements elements.now) (view_head l))
        × (text.now ≡ head_text (view_head l)) × IsPlaced first (view_head l) rest.now)) }
    ensures only { (h : Head) → IsTrue (is_line (as_elements elements.now) h)
        → IsPlaced first h rest.now → text.now ≡ head_text h
        → IfOk result (λ o. option_map view_head o ≡ Some h) }
    ensures none { IfOk result
        (λ o. IfNone o
        ((h : Head) → IsTrue (is_line (as_elements elements.now) h) → text.now ≡ head_text h
        → IsTrue (thin.stands_alone h) × ((first ≡ false) ⊎ IsIndented rest.now))) }
{
    let Some(line) = read_body_line(alloc, text, elements)? else {
        return Ok(None);
    };
    if stands_alone(line.get()) && !is_only_line(first, rest) {
        return Ok(None);
    }
    Ok(Some(line))
}

// Whether a line with these bytes behind it is the only one of its body.
fn is_only_line(first: bool, rest: &[u8]) -> bool
    ensures { MatchBool result (IsTrue first × (IsIndented rest.now → ⊥))
        ((first ≡ false) ⊎ IsIndented rest.now) }
{
    first && !rest.starts_with(b"    ")
}

// What comes after the line where the bytes begin with it.
fn after_line<'a>(bytes: &'a [u8], line: &[u8]) -> Option<&'a [u8]>
    ensures { MatchOption result ((rest : List ℕ) → bytes.now ≡ text_of (line.now ∷ []) ++ rest → ⊥)
        (λ rest. bytes.now ≡ text_of (line.now ∷ []) ++ rest.now) }
{
    bytes.strip_prefix(line)?.strip_prefix(b"\n")
}

// The text of the line that comes next, without its indent and its `\n`, and what comes after it. None where no whole line with
// an indent comes.
fn indented(bytes: &[u8]) -> Option<(&[u8], &[u8])>
    ensures { MatchOption result
        ((text rest : List ℕ) → bytes.now ≡ codes "    " ++ text ++ 10 ∷ rest → ⊥)
        (λ p. IsTrue (is_unbroken p.0.now)
        × (bytes.now ≡ codes "    " ++ p.0.now ++ 10 ∷ p.1.now)) }
{
    whole_line(bytes.strip_prefix(b"    ")?)
}
