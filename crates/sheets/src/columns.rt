// The columns of a posting: each has its top in one cell, and its n entries in those behind.
// Functions of one column take the cells and no table, whose invariant they do not need; moves are told by number,
// since a step reads one part of the cells and writes another.
ghost use Rattle.std.specs.Prelude.{◌≡◌, ◌+◌, ◌≤◌, length};
ghost use Rattle.plans.specs.Posting.{adds_column, blank};
ghost use Rattle.sheets.specs.Words.{numbers_of};
ghost use Rattle.sheets.specs.Table.{Step};
ghost use Rattle.sheets.specs.Work.{column_at, CameAt, Laid, Topped, Normal};

use crate::cells::{Overflow, copy, scale, write};
use crate::table::Table;
use kinds::kind::Kind;

// Multiplies the column at `at` by u.
pub(crate) fn scale_column<K: Kind>(
    cells: &mut [K::Cell],
    at: usize,
    n: usize,
    u: K,
) -> Result<(), Overflow>
    requires { at + (n + 1) ≤ length cells.old }
    ensures { let a = K.Kind.arith in
        let column = column_at a cells.old n at in
        CameAt a (adds_column a (blank a column) u column) n at cells.old result cells.new }
{
    scale(cells, at, n + 1, u)
}

// Lays a column at `to`: a top, and below it the n numbers from `from` on.
pub(crate) fn lay_column<K: Kind>(cells: &mut [K::Cell], to: usize, top: K, from: usize, n: usize)
    requires to { to + (n + 1) ≤ length cells.old }
    requires from { from + n ≤ to }
    ensures { Laid K.Kind.arith n to top from cells.old cells.new }
{
    write(cells, to, top);
    copy::<K>(cells, to + 1, from, n);
}

impl<K: Kind> Table<'_, K> {
    // Lays the moves below their tops: the top of each is the running sum of coefficient × entry.
    // Moves are told by number: the row of one is read while its column is written.
    pub(crate) fn lay_moves(&mut self, coefficients: &[i32]) -> Result<(), Overflow>
        requires { length coefficients.now ≡ self.old.shape.unknowns }
        ensures held { self.new.cells.ghost_name ≡ self.old.cells.ghost_name }
        ensures shape { self.new.shape ≡ self.old.shape }
        ensures laid { let cs = numbers_of K.Kind.arith coefficients.now in
            Step (Topped K.Kind.arith cs) self.old result self.new }
    {
        for j in 0..self.shape.moves {
            let from = self.shape.row(j);
            let top = self
                .running_sum(coefficients, from, K::zero())
                .ok_or(Overflow)?;
            lay_column(
                self.cells,
                self.shape.column(j),
                top,
                from,
                self.shape.unknowns,
            );
        }
        Ok(())
    }

    // Multiplies each move's column by the unit of its top.
    // Moves are told by number: the table's own methods read the top before the column is written.
    pub(crate) fn normalise(&mut self) -> Result<(), Overflow>
        ensures held { self.new.cells.ghost_name ≡ self.old.cells.ghost_name }
        ensures shape { self.new.shape ≡ self.old.shape }
        ensures normal { Step (Normal K.Kind.arith) self.old result self.new }
    {
        for j in 0..self.shape.moves {
            let u = self.top(j).unit();
            scale_column(self.cells, self.shape.column(j), self.shape.unknowns, u)?;
        }
        Ok(())
    }
}
