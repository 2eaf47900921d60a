// The words of a call, as numbers.
ghost use Rattle.std.specs.Prelude.{◌≡◌, ◌≤◌, length, OnOk, FitsSigned};
ghost use Rattle.std.specs.Int.{w32};
ghost use Rattle.std.specs.List.{AllByRecursion};
ghost use Rattle.faults.specs.Refusing.{done_unless};
ghost use Rattle.lines.specs.Hex.{find};
ghost use Rattle.sheets.specs.Sheet.{word_fault};
ghost use Rattle.sheets.specs.Words.{number_of, is_refused};

use faults::{NumberFault, SheetFault};
use kinds::kind::Kind;
use lines::reading::MOST_NUMBERS;

// The number of a word; a word that the kind does not admit counts as zero.
pub(crate) fn word_number<K: Kind>(word: i32) -> K
    ensures { result ≡ number_of K.Kind.arith word }
{
    K::read(word).unwrap_or(K::zero())
}

// Refuses words of which the kind does not admit one, and tells the first such. They are as many as a line has at most, so
// that a byte tells which.
// Kept as a loop: with `position` neither clause was proved, since its closure reads the words of anybody's kind.
pub(crate) fn check_words<K: Kind>(words: &[i32]) -> Result<(), SheetFault>
    requires { length words.now ≤ MOST_NUMBERS }
    ensures fit { OnOk result (AllByRecursion (FitsSigned w32) words.now) }
    ensures value { result ≡ done_unless (word_fault (find (is_refused K.Kind.arith) words.now)) }
{
    for (i, word) in words.iter().enumerate() {
        if K::read(*word).is_none() {
            return Err(SheetFault::Number(NumberFault::NotAdmitted(i as u8)));
        }
    }
    Ok(())
}
