// The calls on a sheet, and what came of one.
ghost use Rattle.std.specs.Prelude.{◌≡◌};
ghost use Rattle.sheets.specs.Answers.{answer_number};

use faults::SheetFault;

/// A call on a sheet, with the numbers that it brings.
#[derive(Clone, Copy)]
pub enum Call<'a> {
    /// The coefficients of an equation, and then its right side.
    Post(&'a [i32]),
    Clear,
    /// A choice: a number for each move.
    Pick(&'a [i32]),
    Show,
}

/// What came of a call that is not refused.
#[derive(Clone, Copy, PartialEq, Eq, Debug)]
pub enum Success {
    /// A posting is taken: its equation is in force from now on; a clearing, a picking or a showing is done.
    Done,
    /// Every plan of the sheet meets the posted equation already.
    Implied,
}

/// What came of a call.
pub type Answer = Result<Success, SheetFault>;

/// An answer as one number, as lines carry it: the fault's where the call is refused.
pub fn number_of(answer: Answer) -> u8
    ensures { result ≡ answer_number answer }
{
    match answer {
        Ok(Success::Done) => 0,
        Ok(Success::Implied) => 1,
        Err(fault) => fault.number(),
    }
}
