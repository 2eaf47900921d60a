// The lent words that a line is unpacked into.
ghost use Rattle.std.specs.Prelude.{◌≡◌, ◌≤◌, length, take, Some, None, OnOk, IfOk, IfErr};
ghost use Rattle.lines.specs.Line.{frame_of as line_frame, numbers, refusal};
ghost use Rattle.sessions.specs.Frames.{known, frame_kind};
ghost use Rattle.sessions.specs.Wiped.{wiped};

use crate::frame::{Frame, KNOWN};
use faults::LineFault;
use lines::reading::{MOST_NUMBERS, read_line};

// Holds the lent words while a line is worked on, the line's numbers in the first `count` of them. At its end, on every
// way out, they are zero again: all that a line may fill, so that the count stays beside the words.
pub(crate) struct Unpacked<'a> {
    words: &'a mut [i32],
    count: usize,
    ghost within: { count ≤ length words.now },
}

// Zeroes the words that a line may be unpacked into, and keeps those beyond.
fn wipe(words: &mut [i32])
    ensures { words.new ≡ wiped words.old }
{
    let n = words.len().min(MOST_NUMBERS);
    words[..n].fill(0);
}

impl Drop for Unpacked<'_> {
    fn drop(self)
        ensures { self.exit.0.now ≡ wiped self.entry.words.now }
    {
        let Unpacked { words, count: _ } = self;
        wipe(words);
    }
}

impl<'a> Unpacked<'a> {
    pub(crate) fn new(words: &'a mut [i32]) -> Unpacked<'a>
        ensures held { result.words.ghost_name ≡ words.entry.ghost_name }
        ensures words { result.words.now ≡ words.old }
        ensures count { result.count ≡ 0 }
    {
        Unpacked { words, count: 0 }
    }

    // Reads a line that a session knows, its numbers into the first words, and tells what it asks for.
    pub(crate) fn read(&mut self, line: &[u8]) -> Result<Frame, LineFault>
        requires { MOST_NUMBERS ≤ length self.old.words.now }
        ensures held { self.new.words.ghost_name ≡ self.old.words.ghost_name }
        ensures accepted { OnOk result (refusal known line.now ≡ None) }
        ensures frame { IfOk result (λ frame. frame ≡ frame_kind (line_frame line.now)) }
        ensures few { OnOk result (self.new.count ≤ MOST_NUMBERS) }
        ensures numbers { OnOk result
            (take self.new.count self.new.words.now ≡ numbers line.now) }
        ensures refused { IfErr result (λ fault. refusal known line.now ≡ Some fault) }
        ensures len { length self.new.words.now ≡ length self.old.words.now }
        ensures wiped { wiped self.new.words.now ≡ wiped self.old.words.now }
    {
        let read = read_line(line, &KNOWN, self.words)?;
        self.count = read.count;
        Frame::try_from(read.frame)
    }

    // The numbers of the line that was read.
    pub(crate) fn numbers(&self) -> &[i32]
        ensures { result.now ≡ take self.now.count self.now.words.now }
    {
        &self.words[..self.count]
    }
}
