// What a posting reads of a table: numbers, running sums, and the tops of the moves' columns.
ghost use Rattle.std.specs.Prelude.{◌≡◌, ◌+◌, ◌<◌, ◌≤◌, length, IfSome, ◌==◌};
ghost use Rattle.plans.specs.Posting.{running, largest_of, total_size};
ghost use Rattle.sheets.specs.Cells.{part, number_at, numbers};
ghost use Rattle.sheets.specs.Table.{columns_of, top_of, skipped, size_of};
ghost use Rattle.sheets.specs.Words.{numbers_of};

use crate::cells::read;
use crate::table::Table;
use crate::words::word_number;
use kinds::kind::Kind;

impl<K: Kind> Table<'_, K> {
    // The number in cell i.
    pub(crate) fn number(&self, i: usize) -> K
        requires { i < length self.now.cells.now }
        ensures { result ≡ number_at K.Kind.arith self.now.cells.now i }
    {
        read::<K>(self.cells, i)
    }

    // The running sum from `start` of coefficient × the number in the cells from `from` on.
    // Cells go by place, as in all methods of a table; costing multiplies words by words, and picking takes one entry
    // of each move.
    pub(crate) fn running_sum(&self, coefficients: &[i32], from: usize, start: K) -> Option<K>
        requires { from + length coefficients.now ≤ length self.now.cells.now }
        ensures { let a = K.Kind.arith in
            let cs = numbers_of a coefficients.now in
            let xs = numbers a (part from (length coefficients.now) self.now.cells.now) in
            result ≡ running a start cs xs }
    {
        let mut sum = start;
        for (i, word) in coefficients.iter().enumerate() {
            sum = sum.add_product(word_number(*word), self.number(from + i))?;
        }
        Some(sum)
    }

    // The top of the column of move j.
    pub(crate) fn top(&self, j: usize) -> K
        requires { j < self.now.shape.moves }
        ensures { result ≡ top_of self.now j }
    {
        self.number(self.shape.column(j))
    }

    // Whether every top has size 0.
    pub(crate) fn all_zero(&self) -> bool
        ensures { result ≡ (total_size K.Kind.arith (columns_of self.now) == 0) }
    {
        (0..self.shape.moves).all(|j| self.top(j).is_zero())
    }

    // The move, but the one to skip, whose column has the largest top by size, the lowest place on a tie.
    // Kept as a loop: of a chain that keeps the larger of two places no clause says which place it gives.
    pub(crate) fn largest(&self, skip: Option<usize>) -> Option<usize>
        ensures value { let k = self.now.shape.moves in
            result ≡ largest_of (size_of self.now) (skipped skip k) k }
        ensures within { IfSome result (λ b. b < self.now.shape.moves) }
    {
        let mut best = None;
        let mut most = K::zero();
        for j in 0..self.shape.moves {
            let here = self.top(j);
            if skip != Some(j) && (best.is_none() || most.smaller(here)) {
                best = Some(j);
                most = here;
            }
        }
        best
    }
}
