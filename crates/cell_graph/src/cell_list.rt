// Lists of cells.
ghost use Rattle.std.specs.Prelude.{◌≡◌, ◌++◌, ◌∷◌, [], OnOk};

use py_value::Memory;
use std::marker::Model;

/// Cells by their numbers, in order.
#[derive(Debug, Drop)]
pub struct CellList {
    inner: Vec<u32>,
}

impl Model for CellList {
    ghost use Rattle.std.specs.Prelude.{ℕ, List};

    ghost Value = { List ℕ };

    ghost view = { λ c. c.inner.items };
}

impl CellList {
    /// These cells.
    pub fn of(wrapped: Vec<u32>) -> Self
        ensures { result ≡ wrapped.items }
    {
        CellList { inner: wrapped }
    }

    /// The numbers of the cells.
    pub fn items(&self) -> &[u32]
        ensures { result.now ≡ self.now }
    {
        self.inner.as_slice()
    }

    /// Gives the wrapped list back.
    pub fn into_items(self) -> Vec<u32>
        ensures { result.items ≡ self }
    {
        let CellList { inner } = self;
        inner
    }

    // Adds a cell at the end.
    pub(crate) fn push(&mut self, cell: u32) -> Result<(), Memory>
        ensures { OnOk result (self.new ≡ self.old ++ cell ∷ []) }
    {
        self.inner.push(cell)?;
        Ok(())
    }
}
