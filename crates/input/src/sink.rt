// What lines are handed to.
ghost use Rattle.std.specs.Prelude.{◌≡◌, ℕ, Bool, List, [], ◌∷◌, ◌++◌, Result, Ok};
ghost use Rattle.std.specs.declared.io.Error.{Error};

use std::io;

// What takes the lines of an input, one after another.
pub trait LineSink {
    // What these lines, handed to it in order, make of it, and its answer: where that is a failure, it failed at the
    // last of them, or in flushing behind it.
    ghost takes: { Self → List (List ℕ) → Result (Unit {0}) Error → Self → Type 0 };

    ghost done: { Self → Bool };

    // Takes one line.
    fn take(&mut self, line: &[u8]) -> io::Result<()>
        ensures { takes self.old (line.now ∷ []) result self.new };

    // Writes out what came of the lines so far, before more input is waited for.
    fn flush(&mut self) -> io::Result<()>
        ensures { takes self.old [] result self.new };

    // Whether it has enough, so that no more input is read for it.
    fn is_done(&self) -> bool
        ensures { result ≡ done self.now };

    ghost takes_none: { (x : Self) → takes x [] (Ok tt) x };

    ghost takes_both: { (x y z : Self) (xs ys : List (List ℕ)) (result : Result (Unit {0}) Error)
        → takes x xs (Ok tt) y → takes y ys result z → takes x (xs ++ ys) result z };
}
