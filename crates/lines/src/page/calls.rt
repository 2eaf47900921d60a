// The calls of a page. Each is stated on the page's model, and keeps whose bytes the page holds.
ghost use Rattle.std.specs.Prelude.{◌≡◌, ◌+◌, ◌≤◌, length};
ghost use Rattle.lines.specs.Page.{over, with_zeroes, model, empty_page, with_bytes, begin_answer, begin_left, put_answer, put_left, line_or_owed, end_answer, close_left, give_up_left, text_refusal};

use super::begun::Begun;
use super::{LineToken, Owed, Page};
use crate::hex::{byte_digits, word_digits};
use crate::reading::MOST_NUMBERS;
use faults::PageFault;

impl<'a> Page<'a> {
    // A page with no line yet, over all the lent bytes.
    pub fn new(bytes: &'a mut [u8]) -> Page<'a>
        ensures held { result.bytes.ghost_name ≡ bytes.entry.ghost_name }
        ensures model { model result ≡ empty_page bytes.old }
    {
        Page {
            bytes,
            end: 0,
            line: None,
        }
    }

    // Puts the bytes s from `at` on.
    fn lay(&mut self, at: usize, s: &[u8])
        requires { at + length s.now ≤ length self.old.bytes.now }
        ensures held { self.new.bytes.ghost_name ≡ self.old.bytes.ghost_name }
        ensures model { model self.new
            ≡ with_bytes (model self.old) (over self.old.bytes.now at s.now) }
        ensures len { length self.new.bytes.now ≡ length self.old.bytes.now }
    {
        self.bytes[at..at + s.len()].copy_from_slice(s);
    }

    // Zeroes n bytes from `at` on.
    fn wipe(&mut self, at: usize, n: usize)
        requires { at + n ≤ length self.old.bytes.now }
        ensures held { self.new.bytes.ghost_name ≡ self.old.bytes.ghost_name }
        ensures model { model self.new
            ≡ with_bytes (model self.old) (with_zeroes self.old.bytes.now at n) }
        ensures len { length self.new.bytes.now ≡ length self.old.bytes.now }
    {
        self.bytes[at..at + n].fill(0);
    }

    // Why `len` bytes of whole lines cannot be put at the page's end. Kept as an Option: it is public, and callers may
    // rest on it.
    pub fn text_refusal(&self, len: usize) -> Option<PageFault>
        ensures { result ≡ text_refusal (model self.now) len }
    {
        if self.line.is_some() {
            return Some(PageFault::LineBegun);
        }
        if self.bytes.len() - self.end < len {
            return Some(PageFault::NoRoom);
        }
        None
    }

    // Begins a line with room for some numbers: zeroes what the line fills when full, and writes its frame.
    pub fn begin(&mut self, frame: u8, room: usize) -> Result<LineToken, PageFault>
        ensures held { self.new.bytes.ghost_name ≡ self.old.bytes.ghost_name }
        ensures answer { result ≡ begin_answer (model self.old) room }
        ensures left { model self.new ≡ begin_left (model self.old) frame room }
    {
        if self.line.is_some() {
            return Err(PageFault::LineBegun);
        }
        let end = self.end;
        let rest = self.bytes.len() - end;
        if rest < 5 || room > (rest - 5) / 8 {
            return Err(PageFault::NoRoom);
        }
        if room > MOST_NUMBERS {
            return Err(PageFault::TooMany);
        }
        self.wipe(end, 5 + 8 * room);
        self.lay(end, &byte_digits(frame));
        self.line = Some(Begun { room, put: 0 });
        Ok(LineToken { own: () })
    }

    // Adds a number to the begun line.
    pub fn put(&mut self, _token: &LineToken, word: i32) -> Result<(), PageFault>
        ensures held { self.new.bytes.ghost_name ≡ self.old.bytes.ghost_name }
        ensures answer { result ≡ put_answer (model self.old) }
        ensures left { model self.new ≡ put_left (model self.old) word }
    {
        let line = self.line.ok_or(PageFault::NoLine)?;
        if line.put >= line.room {
            return Err(PageFault::TooMany);
        }
        let at = self.end + (4 + 8 * line.put);
        self.lay(at, &word_digits(word));
        self.line = Some(Begun {
            room: line.room,
            put: line.put + 1,
        });
        Ok(())
    }

    // The begun line, whose token is taken; with none, the token is still owed.
    fn begun_line(&self, token: LineToken) -> Result<Begun, Owed>
        ensures { result ≡ line_or_owed self.now.line token }
    {
        let Some(line) = self.line else {
            return Err(Owed {
                token,
                fault: PageFault::NoLine,
            });
        };
        let LineToken { own: _ } = token;
        Ok(line)
    }

    // Closes the begun line: writes the count truly put and, behind the last number put, the line feed, where the
    // page then ends.
    pub fn close(&mut self, token: LineToken) -> Result<(), Owed>
        ensures held { self.new.bytes.ghost_name ≡ self.old.bytes.ghost_name }
        ensures answer { result ≡ end_answer (model self.old) token }
        ensures left { model self.new ≡ close_left (model self.old) }
    {
        let put = self.begun_line(token)?.put;
        let end = self.end;
        self.lay(end + 2, &byte_digits(put as u8));
        self.lay(end + (4 + 8 * put), b"\n");
        self.end = end + (5 + 8 * put);
        self.line = None;
        Ok(())
    }

    // Gives the begun line up: zeroes its bytes, and the page ends where it ended before.
    pub fn give_up(&mut self, token: LineToken) -> Result<(), Owed>
        ensures held { self.new.bytes.ghost_name ≡ self.old.bytes.ghost_name }
        ensures answer { result ≡ end_answer (model self.old) token }
        ensures left { model self.new ≡ give_up_left (model self.old) }
    {
        let line = self.begun_line(token)?;
        self.wipe(self.end, 5 + 8 * line.room);
        self.line = None;
        Ok(())
    }
}
