// A sheet over lent cells.
ghost use Rattle.sheets.specs.Cells.{HasCells};

use crate::shape::Shape;
use kinds::kind::Kind;

mod calls;

pub use calls::check;

// Kept without an `impl Model`: as with a page, callers also need to know whose cells it holds.
#[derive(Drop)]
pub struct Sheet<'a, K: Kind> {
    // The fixed plan, the moves in order, and the spare cells; there may be more behind them. Shape and list number are
    // kept apart, as the definition `model` reads them.
    pub(crate) cells: &'a mut [K::Cell],
    pub(crate) shape: Shape,
    // Names the list of unknowns that the sheet's equations are about.
    list: u16,
    ghost cells_enough: { HasCells shape.unknowns cells.now },
}
