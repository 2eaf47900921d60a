// Laying a new sheet into lent cells.
ghost use Rattle.std.specs.Prelude.{◌≡◌, ◌+◌, ◌<◌, ◌≤◌, [], length, slice_index_or};
ghost use Rattle.std.specs.List.{flat_map};
ghost use Rattle.plans.specs.Sheet.{unit_moves, new_sheet};
ghost use Rattle.sheets.specs.Cells.{held, needed, sheet_cells};
ghost use Rattle.lines.specs.Page.{over};

use crate::cells::{wipe, write};
use crate::shape::{MOST_UNKNOWNS, Shape};
use crate::table::Table;
use kinds::kind::Kind;

// Lays move j of a new sheet of n unknowns into the cells from `from` on: 1 at unknown j and 0 elsewhere.
// Its bound is kept as a `requires`, as those of all work on cells.
fn lay_unit<K: Kind>(cells: &mut [K::Cell], from: usize, n: usize, j: usize)
    requires room { from + n ≤ length cells.old }
    requires there { j < n }
    ensures { let move = slice_index_or (unit_moves K.Kind.arith n) j [] in
        cells.new ≡ over cells.old from (held K.Kind.arith move) }
{
    wipe::<K>(cells, from, n);
    write(cells, from + j, K::one());
}

impl<K: Kind> Table<'_, K> {
    // Lays the moves of a new sheet, one behind another behind the fixed plan.
    // Moves are told by number, which also says where the 1 of a move stands.
    fn lay_units(&mut self)
        requires { self.old.shape.moves ≡ self.old.shape.unknowns }
        ensures held { self.new.cells.ghost_name ≡ self.old.cells.ghost_name }
        ensures shape { self.new.shape ≡ self.old.shape }
        ensures cells { let n = self.old.shape.unknowns in
            let rows = flat_map (λ move. move) (unit_moves K.Kind.arith n) in
            self.new.cells.now ≡ over self.old.cells.now n (held K.Kind.arith rows) }
    {
        for j in 0..self.shape.moves {
            lay_unit::<K>(self.cells, self.shape.row(j), self.shape.unknowns, j);
        }
    }

    // Lays the new sheet.
    pub(crate) fn lay_new(&mut self)
        requires { self.old.shape.moves ≡ self.old.shape.unknowns }
        ensures held { self.new.cells.ghost_name ≡ self.old.cells.ghost_name }
        ensures shape { self.new.shape ≡ self.old.shape }
        ensures cells { let n = self.old.shape.unknowns in
            let sheet = new_sheet K.Kind.arith n in
            self.new.cells.now ≡ sheet_cells K.Kind.arith n sheet self.old.cells.now }
    {
        let n = self.shape.unknowns;
        wipe::<K>(self.cells, 0, n);
        self.lay_units();
        wipe::<K>(self.cells, self.shape.spare(), (n + 1) * (n + 1));
    }
}

// Lays the new sheet of n unknowns into cells that suffice for it; answers its shape.
pub(crate) fn lay_sheet<K: Kind>(cells: &mut [K::Cell], n: usize) -> Shape
    requires small { n ≤ MOST_UNKNOWNS }
    requires room { needed n ≤ length cells.old }
    ensures unknowns { result.unknowns ≡ n }
    ensures moves { result.moves ≡ n }
    ensures cells { cells.new ≡ sheet_cells K.Kind.arith n (new_sheet K.Kind.arith n) cells.old }
{
    let shape = Shape {
        unknowns: n,
        moves: n,
    };
    let mut table = Table::<K> { cells, shape };
    table.lay_new();
    shape
}
