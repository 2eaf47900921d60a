// Posting an equation's numbers to the table of a sheet.
ghost use Rattle.std.specs.Prelude.{◌≡◌, ◌+◌, ◌≤◌, length, take, pos, slice_index_or};
ghost use Rattle.faults.specs.declared.SheetFault.TheVariants.{Overflow as Overflowed};
ghost use Rattle.plans.specs.Posting.{worked, normalised};
ghost use Rattle.sheets.specs.Cells.{needed};
ghost use Rattle.sheets.specs.Posted.{answer_of, cells_after, Prepared, Settled};
ghost use Rattle.sheets.specs.Table.{Step, B_of, columns_of, outcome_in, outcome_on};
ghost use Rattle.sheets.specs.Words.{number_of, numbers_of};

use crate::call::{Answer, Success};
use crate::cells::{Overflow, wipe};
use crate::columns::lay_column;
use crate::shape::Shape;
use crate::table::Table;
use crate::words::word_number;
use faults::SheetFault;
use kinds::kind::Kind;

impl From<Overflow> for SheetFault {
    ghost from_gives = { λ lower whole. whole ≡ Overflowed };

    fn from(_lower: Overflow) -> SheetFault {
        SheetFault::Overflow
    }
}

// An equation is given by its words, the coefficients and then the right side.
// Their count is kept as a `requires`: it ties the words of a call to the table, and belongs to neither alone.
impl<K: Kind> Table<'_, K> {
    // Lays column B and the moves' columns below their tops.
    fn prepare(&mut self, words: &[i32]) -> Result<(), Overflow>
        requires { length words.now ≡ self.old.shape.unknowns + 1 }
        ensures held { self.new.cells.ghost_name ≡ self.old.cells.ghost_name }
        ensures shape { self.new.shape ≡ self.old.shape }
        ensures prepared { let a = K.Kind.arith in
            let n = self.old.shape.unknowns in
            let cs = numbers_of a (take n words.now) in
            let right = number_of a (slice_index_or words.now n (pos 0)) in
            Step (Prepared a cs right) self.old result self.new }
    {
        let n = self.shape.unknowns;
        let coefficients = &words[..n];
        self.lay_moves(coefficients)?;
        let start = word_number::<K>(words[n]).negative();
        let top = self.running_sum(coefficients, 0, start).ok_or(Overflow)?;
        lay_column(self.cells, self.shape.spare(), top, 0, n);
        Ok(())
    }

    // Works the columns down to one pivot, and writes back what is left where the equation is taken.
    fn settle(&mut self) -> Answer
        ensures held { self.new.cells.ghost_name ≡ self.old.cells.ghost_name }
        ensures shape { self.new.shape ≡ self.old.shape }
        ensures settled { let a = K.Kind.arith in
            let outcome = worked a (B_of self.old) (normalised a (columns_of self.old)) in
            Step (Settled a outcome) self.old result self.new }
    {
        self.normalise()?;
        let pivot = self.rounds()?;
        let met = self.finish(pivot)?;
        if !met {
            return Err(SheetFault::Contradicted);
        }
        self.close_up(pivot);
        Ok(Success::Done)
    }

    // Works a posting out in the spare cells, which are left as they may be; where the equation is taken, the main
    // cells hold the new plan and moves.
    fn work(&mut self, words: &[i32]) -> Answer
        requires { length words.now ≡ self.old.shape.unknowns + 1 }
        ensures held { self.new.cells.ghost_name ≡ self.old.cells.ghost_name }
        ensures shape { self.new.shape ≡ self.old.shape }
        ensures settled { let outcome = outcome_on self.old words.now in
            Step (Settled K.Kind.arith outcome) self.old result self.new }
    {
        self.prepare(words)?;
        if self.all_zero() {
            if self.number(self.shape.spare()).is_zero() {
                return Ok(Success::Implied);
            }
            return Err(SheetFault::Contradicted);
        }
        self.settle()
    }

    // Posts an equation. The shape is kept: the caller counts the moves of the sheet.
    pub(crate) fn post(&mut self, words: &[i32]) -> Answer
        requires { length words.now ≡ self.old.shape.unknowns + 1 }
        ensures held { self.new.cells.ghost_name ≡ self.old.cells.ghost_name }
        ensures shape { self.new.shape ≡ self.old.shape }
        ensures value { result ≡ answer_of (outcome_on self.old words.now) }
        ensures cells { let n = self.old.shape.unknowns in
            let outcome = outcome_on self.old words.now in
            self.new.cells.now ≡ cells_after K.Kind.arith outcome n self.old.cells.now }
    {
        let verdict = self.work(words);
        let n = self.shape.unknowns;
        wipe::<K>(self.cells, self.shape.spare(), (n + 1) * (n + 1));
        verdict
    }
}

// Posts an equation to the sheet of a shape that stands in the cells.
pub(crate) fn post_words<K: Kind>(cells: &mut [K::Cell], shape: Shape, words: &[i32]) -> Answer
    requires room { needed shape.unknowns ≤ length cells.old }
    requires exact { length words.now ≡ shape.unknowns + 1 }
    ensures value { result ≡ answer_of (outcome_in K.Kind.arith shape cells.old words.now) }
    ensures cells { let outcome = outcome_in K.Kind.arith shape cells.old words.now in
        cells.new ≡ cells_after K.Kind.arith outcome shape.unknowns cells.old }
{
    let mut table = Table::<K> { cells, shape };
    table.post(words)
}
