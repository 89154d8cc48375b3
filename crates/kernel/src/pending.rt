// The rest of an answer.
ghost use Rattle.std.specs.Prelude.{◌≡◌};
ghost use Rattle.kernel.specs.Pending.{cells_of, count_of, IsWithin};

use cell_graph::CellList;
use frames::Frame;

/// Cells that run one after the other.
#[derive(Drop)]
pub enum Cells<'n> {
    /// These, as a notebook has them in its order.
    Lent(&'n [u32]),
    /// Those that run again.
    Again(CellList),
}

impl<'n> Cells<'n> {
    /// Their numbers.
    pub fn items(&self) -> &[u32]
        ensures { result.now ≡ cells_of self.now }
    {
        match self {
            Cells::Lent(cells) => cells,
            Cells::Again(cells) => cells.items(),
        }
    }
}

/// What is still to come of an answer.
#[derive(Drop)]
pub enum Pending<'n> {
    /// Nothing.
    Nothing,
    /// Why the message is refused, and that there are no results.
    Refusal(Frame),
    /// The results of these cells from the place `taken` on, and the number of all.
    Results { cells: Cells<'n>, taken: usize },
}

impl<'n> Pending<'n> {
    /// How many frames are to come.
    pub fn count(&self) -> u32
        requires { IsWithin self.now }
        ensures { result ≡ count_of self.now }
    {
        match self {
            Pending::Nothing => 0,
            Pending::Refusal(_) => 2,
            Pending::Results { cells, taken } => (cells.items().len() - *taken) as u32 + 1,
        }
    }
}
