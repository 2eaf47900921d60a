// The table of a sheet in lent cells, for every kind alike: a row of n cells for the fixed plan and for each move, and
// behind them, in the spare cells, the columns that a posting works on.
ghost use Rattle.std.specs.Prelude.{◌≤◌, length};
ghost use Rattle.sheets.specs.Cells.{needed};

use crate::shape::Shape;
use kinds::kind::Kind;

// Each method that may write says that it keeps the shape and whose cells they are: behind `&mut` no field is constant.
#[derive(Drop)]
pub(crate) struct Table<'a, K: Kind> {
    pub(crate) cells: &'a mut [K::Cell],
    pub(crate) shape: Shape,
    ghost room: { needed shape.unknowns ≤ length cells.now },
}
