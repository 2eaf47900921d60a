// The end of a posting: column B reduced by the pivot, and what is left written back.
// That the pivot is one of the moves is kept as a `requires`: the type of a number cannot name the table that it counts
// in.
ghost use Rattle.std.specs.Prelude.{◌≡◌, ◌+◌, ◌^◌, ◌<◌, Some};
ghost use Rattle.plans.specs.Posting.{finish as finished};
ghost use Rattle.sheets.specs.Cells.{held, main_of};
ghost use Rattle.std.specs.List.{flat_map};
ghost use Rattle.sheets.specs.Table.{Step, work_of, left_of};
ghost use Rattle.sheets.specs.Work.{Finished, Source};
ghost use Rattle.lines.specs.Page.{over};

use crate::cells::{Overflow, combine, copy, wipe};
use crate::table::Table;
use kinds::kind::Kind;

// Which column is move j once the pivot is dropped.
fn source(j: usize, pivot: usize) -> usize
    requires { j < 2 ^ 32 }
    ensures { Source j pivot result }
{
    if j < pivot { j } else { j + 1 }
}

impl<K: Kind> Table<'_, K> {
    // Reduces B by the pivot: whether its top comes to 0, and then its entries are the new fixed plan.
    pub(crate) fn finish(&mut self, pivot: usize) -> Result<bool, Overflow>
        requires { pivot < self.old.shape.moves }
        ensures held { self.new.cells.ghost_name ≡ self.old.cells.ghost_name }
        ensures shape { self.new.shape ≡ self.old.shape }
        ensures finished { let outcome = finished K.Kind.arith (Some (pivot, work_of self.old)) in
            Step (Finished K.Kind.arith outcome pivot) self.old result self.new }
    {
        let at = self.shape.spare();
        let p = self.shape.column(pivot);
        let b = self.number(at);
        let d = self.number(p);
        let minus = b.quotient(d).ok_or(Overflow)?.negative();
        let top = b.add_product(minus, d).ok_or(Overflow)?;
        if !top.is_zero() {
            return Ok(false);
        }
        combine(self.cells, at + 1, p + 1, self.shape.unknowns, minus)?;
        Ok(true)
    }

    // Writes the moves but the pivot back, one behind another behind the fixed plan.
    // Moves are told by number: a row of the slice is written while a column of it is read.
    fn close_moves(&mut self, pivot: usize)
        requires { pivot < self.old.shape.moves }
        ensures held { self.new.cells.ghost_name ≡ self.old.cells.ghost_name }
        ensures shape { self.new.shape ≡ self.old.shape }
        ensures cells { let n = self.old.shape.unknowns in
            let rows = flat_map (λ move. move) (left_of self.old pivot).moves in
            self.new.cells.now ≡ over self.old.cells.now n (held K.Kind.arith rows) }
    {
        for j in 0..self.shape.moves - 1 {
            let from = self.shape.column(source(j, pivot));
            copy::<K>(self.cells, self.shape.row(j), from + 1, self.shape.unknowns);
        }
    }

    // Writes back what a posting left in the columns: B's entries as the fixed plan, and the moves but the pivot; what
    // is left of the moves' cells holds zero.
    pub(crate) fn close_up(&mut self, pivot: usize)
        requires { pivot < self.old.shape.moves }
        ensures held { self.new.cells.ghost_name ≡ self.old.cells.ghost_name }
        ensures shape { self.new.shape ≡ self.old.shape }
        ensures cells { let n = self.old.shape.unknowns in
            let main = main_of K.Kind.arith n (left_of self.old pivot) in
            self.new.cells.now ≡ over self.old.cells.now 0 main }
    {
        let n = self.shape.unknowns;
        let left = self.shape.moves - 1;
        copy::<K>(self.cells, 0, self.shape.spare() + 1, n);
        self.close_moves(pivot);
        wipe::<K>(self.cells, n + left * n, (n - left) * n);
    }
}
