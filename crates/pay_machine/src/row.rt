//! The fixings of one scenario, one for each event of a program.

use pay_fixed::{Fixed, NoMemory};
use std::alloc::Global;
use std::marker::Model;

/// One cell for each event of a program, in order: the fixing at its date, if there is one, of at most 10^15 raws in magnitude.
#[derive(Drop)]
pub struct Row {
    cells: Vec<Option<Fixed>>,
}

impl Model for Row {
    ghost use Rattle.pay_runs.specs.Slots.{Row as Cells};
    ghost use Rattle.pay_machine.specs.Rows.{AreCells};

    ghost Value = { Cells };

    ghost view = { λ row. row.cells.items };

    ghost invariant = { λ row. AreCells row.cells.items };
}

impl Row {
    ghost use Rattle.std.specs.Prelude.{◌≡◌, ◌++◌, ◌∷◌, [], OnOk, OnErr};
    ghost use Rattle.pay_machine.specs.Rows.{AreCells, IsCell};

    /// A row without cells. It takes no memory.
    pub fn new(alloc: Global) -> Row
        ensures { result ≡ [] }
    {
        Row {
            cells: Vec::new(alloc),
        }
    }

    /// Appends a cell: the next event's fixing, at most 10^15 raws in magnitude, or none.
    ///
    /// # Errors
    ///
    /// [`NoMemory`] where there was no memory for it; then the row is as before.
    #[tactic(auto, using(crate::proofs::RowLemmas::one_more_cell))]
    pub fn push(&mut self, cell: Option<Fixed>) -> Result<(), NoMemory>
        requires { IsCell cell }
        ensures ok { OnOk result (self.new ≡ self.old ++ cell ∷ []) }
        ensures err { OnErr result (self.new ≡ self.old) }
    {
        match self.cells.push(cell) {
            Ok(()) => Ok(()),
            Err(_) => Err(NoMemory),
        }
    }

    /// Takes all cells out, and keeps the memory for the next ones.
    pub fn clear(&mut self)
        ensures { self.new ≡ [] }
    {
        self.cells.clear();
    }

    /// The cells, in order.
    pub fn cells(&self) -> &[Option<Fixed>]
        ensures same { result.now ≡ self.now }
        ensures fixings { AreCells self.now }
    {
        self.cells.as_slice()
    }
}
