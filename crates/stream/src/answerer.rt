// What answers the lines of an input.
ghost use Rattle.std.specs.Prelude.{◌≡◌};
ghost use Rattle.sessions.specs.Session.{view, new_session};

use crate::LAST_LINE;
use input::sink::LineSink;
use lines::reading::MOST_NUMBERS;
use sessions::session::{OUTPUT, Session};
use std::io;
use std::io::Write;

// A session, the memory that its answers are written to, and where they go: fixed arrays, with no heap.
#[derive(Drop)]
pub struct Answerer<'a, W> {
    session: Session,
    // How many lines were answered.
    count: u32,
    words: [i32; MOST_NUMBERS],
    to: &'a mut W,
    out: [u8; OUTPUT],
}

impl<'a, W: Write> Answerer<'a, W> {
    pub fn new(to: &'a mut W) -> Answerer<'a, W>
        ensures session { view result.session ≡ new_session }
        ensures count { result.count ≡ 0 }
        ensures to { result.to.ghost_name ≡ to.entry.ghost_name }
        ensures kept { result.to.now ≡ to.old }
    {
        Answerer {
            session: Session::new(),
            count: 0,
            out: [0; OUTPUT],
            words: [0; MOST_NUMBERS],
            to,
        }
    }
}

impl<W: Write> LineSink for Answerer<'_, W> {
    ghost use Rattle.std.specs.Prelude.{◌≡◌, OnOk, nat_le, refl};
    ghost use Rattle.sessions.specs.Session.{view};
    ghost use Rattle.stream.specs.Replies.{GoesOn};
    ghost use Rattle.stream.specs.Going.{goes_none, goes_on};
    ghost use Rattle.std.proofs.Common.{◌∙◌};
    ghost use Rattle.stream.specs.declared.TheConstants.{LAST_LINE};

    ghost takes = { λ x lines result y. (y.to.ghost_name ≡ x.to.ghost_name)
        × OnOk result (GoesOn (view x.session) x.count (W.contents x.to.now) lines
        (view y.session) y.count (W.contents y.to.now)) };

    ghost done = { λ x. nat_le LAST_LINE x.count };

    ghost takes_none = { λ x. (refl, goes_none (view x.session) x.count (W.contents x.to.now)) };

    ghost takes_both = { λ x y z xs ys result first second. (
      second.0 ∙ first.0,
      goes_on _ _ _ _ _ _ _ _ _ xs ys result first.1 second.1,
    ) };

    // Nothing is written in answer to a line behind the last that is answered.
    fn take(&mut self, line: &[u8]) -> io::Result<()> {
        if self.is_done() {
            return Ok(());
        }
        self.count += 1;
        match self
            .session
            .call(self.count as i32, line, &mut self.out, &mut self.words)
        {
            Ok(n) => self.to.write_all(&self.out[..n]),
            // Never: the output and the words are large enough.
            Err(_) => Ok(()),
        }
    }

    fn flush(&mut self) -> io::Result<()> {
        self.to.flush()
    }

    fn is_done(&self) -> bool {
        self.count >= LAST_LINE
    }
}
