// The rounds of a posting, on column B and the moves' columns.
ghost use Rattle.std.specs.Prelude.{◌≡◌, ◌<◌, IfSome};
ghost use Rattle.plans.specs.Posting.{largest_of};
ghost use Rattle.sheets.specs.Table.{Step, B_of, top_of, size_of};
ghost use Rattle.sheets.specs.Work.{unless_zero, factors as factors_of, Ended};

use crate::cells::{Overflow, add_number};
use crate::table::Table;
use kinds::kind::Kind;

impl<K: Kind> Table<'_, K> {
    // The runner-up to the pivot; None where every other top has size 0.
    fn runner_up(&self, pivot: usize) -> Option<usize>
        ensures value { let size = size_of self.now in
            result ≡ unless_zero size (largest_of size pivot self.now.shape.moves) }
        ensures within { IfSome result (λ r. r < self.now.shape.moves) }
    {
        let runner = self.largest(Some(pivot))?;
        if self.top(runner).is_zero() {
            return None;
        }
        Some(runner)
    }

    // What a round multiplies the pivot by to add it to B, and the runner-up to add it to the pivot.
    // That pivot and runner-up are moves is kept as a `requires`, as in the end of a posting.
    fn factors(&self, pivot: usize, runner: usize) -> Option<(K, K)>
        requires pivot { pivot < self.now.shape.moves }
        requires runner { runner < self.now.shape.moves }
        ensures { let top = top_of self.now in
            result ≡ factors_of K.Kind.arith (B_of self.now).top (top pivot) (top runner) }
    {
        let b = self.number(self.shape.spare());
        let p = self.top(pivot);
        let r = self.top(runner);
        let of_b = b.quotient(p)?.negative();
        let of_pivot = p.quotient(r)?.negative();
        Some((of_b, of_pivot))
    }

    // The rounds, until no runner-up is left: the pivot then. A round reduces B by the pivot, and the pivot by the
    // runner-up, in one walk down the entries of both.
    pub(crate) fn rounds(&mut self) -> Result<usize, Overflow>
        ensures held { self.new.cells.ghost_name ≡ self.old.cells.ghost_name }
        ensures shape { self.new.shape ≡ self.old.shape }
        ensures ended { Step (Ended K.Kind.arith) self.old result self.new }
    {
        let n = self.shape.unknowns;
        let b = self.shape.spare();
        let mut pivot = self.largest(None).ok_or(Overflow)?;
        let end = 'rounds: loop {
            let Some(runner) = self.runner_up(pivot) else {
                break 'rounds Ok(pivot);
            };
            let Some(factors) = self.factors(pivot, runner) else {
                break 'rounds Err(Overflow);
            };
            let (of_b, of_pivot) = factors;
            let p = self.shape.column(pivot);
            let r = self.shape.column(runner);
            for i in 0..=n {
                if add_number(self.cells, b + i, p + i, of_b).is_none()
                    || add_number(self.cells, p + i, r + i, of_pivot).is_none()
                {
                    break 'rounds Err(Overflow);
                }
            }
            pivot = runner;
        };
        end
    }
}
