// Lines of hexadecimal digits, read and written, and the page that they are written to.

#![tactic(auto)]

ghost use Rattle.lines.specs.PageLaws.{ShortLine, GivenUp, RoomExact, Refusals};
ghost use Rattle.lines.specs.SampleLines.{Readings, NumbersRead, TooLong};

pub mod hex;
pub mod page;
pub mod reading;
pub mod writing;

// What the definitions come to on sample lines: the answers of reading them with their places, as the table of the answers
// has them, and a line's numbers. A line of 26 numbers would not read back.
pub fn lines_stand()
    ensures readings { Readings }
    ensures numbers { NumbersRead }
    ensures too_long { TooLong }
{}

// What holds of every page: a line that is closed before it is full has zeroes behind it, one that is given up leaves
// nothing but zeroes, and there is room for a text exactly where it is not refused. And what the calls of sample pages
// are refused by.
pub fn pages_stand()
    ensures short { ShortLine }
    ensures given_up { GivenUp }
    ensures room { RoomExact }
    ensures refusals { Refusals }
{}
