// The lines of an input, answered one after another by one session.

#![tactic(auto)]

ghost use Rattle.std.specs.Prelude.{OnOk, IfSome};
ghost use Rattle.std.specs.Io.KnownBytes.{Appends};
ghost use Rattle.stream.specs.Replies.{written_for, Answered};

use answerer::Answerer;
use input::reading::take_lines;
use std::io;
use std::io::{BufRead, Write};

mod answerer;
pub mod theorems;

// Lines beyond this one are not answered, and are not read once the input shows that there are so many.
pub const LAST_LINE: u32 = 1_000_000;

// Answers the lines of the input by a new session, counted from 1 and up to LAST_LINE. A line is cut to its first bytes,
// and a last line that lacks its line feed counts if it has a byte. The output is flushed before more input is waited
// for, and not at the end.
pub fn answer_lines<R: BufRead, W: Write>(input: &mut R, to: &mut W) -> io::Result<()>
    ensures answered { OnOk result (Answered (R.remaining input.old) (R.remaining input.new)
        (W.contents to.old) (W.contents to.new)) }
    ensures written { OnOk result (IfSome (R.remaining input.old)
        (λ bytes. Appends (W.contents to.old) (W.contents to.new) (written_for bytes))) }
{
    let mut answerer = Answerer::new(to);
    take_lines(input, &mut answerer)
}
