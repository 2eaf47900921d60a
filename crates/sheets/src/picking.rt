// The plan of a choice, worked out from a sheet's cells.
// That they suffice is a `requires`: the sheet's invariant says so where it has unknowns.
ghost use Rattle.std.specs.Prelude.{◌≡◌, ◌<◌, ◌≤◌, length};
ghost use Rattle.sheets.specs.Cells.{needed};
ghost use Rattle.sheets.specs.Picking.{picked as picked_of, plan_of, Planned};
ghost use Rattle.sheets.specs.Sheet.{contents_of, model};
ghost use Rattle.sheets.specs.Words.{numbers_of};

use crate::cells::read;
use crate::shape::MOST_UNKNOWNS;
use crate::sheet::Sheet;
use crate::words::word_number;
use kinds::kind::Kind;

impl<K: Kind> Sheet<'_, K> {
    // The number for unknown i: the running sum from the fixed plan's of move entry × its number in the choice.
    // Moves are told by number, by which the shape shows that they lie within the cells.
    fn picked(&self, choice: &[i32], i: usize) -> Option<K>
        requires room { needed self.now.shape.unknowns ≤ length self.now.cells.now }
        requires exact { length choice.now ≡ self.now.shape.moves }
        requires there { i < self.now.shape.unknowns }
        ensures { let a = K.Kind.arith in
            let contents = contents_of a (model self.now) in
            result ≡ picked_of a contents (numbers_of a choice.now) i }
    {
        let mut sum = read::<K>(self.cells, i);
        for (j, word) in choice.iter().enumerate() {
            let entry = read::<K>(self.cells, self.shape.row(j) + i);
            sum = sum.add_product(entry, word_number(*word))?;
        }
        Some(sum)
    }

    // The words of the plan of a choice: a word for each unknown, in the first of 24.
    // Kept as an array with room to spare: no heap, and no lent word is written before the whole plan is known.
    pub(crate) fn plan_words(&self, choice: &[i32]) -> Option<[i32; MOST_UNKNOWNS]>
        requires room { needed self.now.shape.unknowns ≤ length self.now.cells.now }
        requires exact { length choice.now ≡ self.now.shape.moves }
        ensures { let a = K.Kind.arith in
            let n = self.now.shape.unknowns in
            let contents = contents_of a (model self.now) in
            Planned a (plan_of a n contents (numbers_of a choice.now)) n result }
    {
        let mut words = [0; MOST_UNKNOWNS];
        for (i, word) in words[..self.shape.unknowns].iter_mut().enumerate() {
            *word = self.picked(choice, i)?.write();
        }
        Some(words)
    }
}
