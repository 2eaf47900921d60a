// The lines of a stream of bytes that comes in chunks, each line cut to its first 205 bytes.

#![tactic(auto)]

ghost use Rattle.std.specs.Prelude.{◌≡◌, ◌<◌, ◌≤◌, ◌++◌, ◌==◌, [], length, take, position, option_copied, IfSome, OnOk};
ghost use Rattle.input.specs.Cutting.{line_feed, line as line_part, rest, lines, left, unended_line, Handed};
ghost use Rattle.input.specs.Told.{CutTold, LinesNoted, BytesNoted};

use sink::LineSink;
use std::io;
use std::marker::Model;

pub mod reading;
pub mod sink;

// One byte more than the longest line has, so that a longer one is still seen to be too long.
pub const KEEP: usize = 205;

// Carries theorems alone: samples of cutting follow from the definitions. And by the words of the clauses of
// `each_line` and `take_lines`, a sink that notes what it is handed has noted, in order and once, the lines up to the
// one that it refuses, or those of the bytes that are no longer left, and nothing else.
pub fn cutting_told()
    ensures samples { CutTold }
    ensures lines { LinesNoted }
    ensures bytes { BytesNoted }
{}

// The line so far, at most its first 205 bytes: clauses see these bytes. An array with a length: the memory is fixed,
// with no heap.
#[derive(Drop)]
pub struct Cutter {
    held: [u8; KEEP],
    len: usize,
}

impl Model for Cutter {
    ghost use Rattle.std.specs.Prelude.{◌≤◌, ℕ, List, take};
    ghost use Rattle.input.specs.declared.TheConstants.{KEEP};

    ghost Value = { List ℕ };

    ghost view = { λ cutter. take cutter.len cutter.held };

    ghost invariant = { λ cutter. cutter.len ≤ KEEP };
}

// Where the first line feed stands.
fn find_feed(chunk: &[u8]) -> Option<usize>
    ensures { result ≡ position (λ b. b == line_feed) chunk.now }
{
    chunk.iter().position(|b| *b == b'\n')
}

impl Cutter {
    pub fn new() -> Cutter
        ensures { result ≡ [] }
    {
        Cutter {
            held: [0; KEEP],
            len: 0,
        }
    }

    // The line so far.
    pub fn line(&self) -> &[u8]
        ensures value { result.now ≡ self.now }
        ensures fits { length result.now ≤ KEEP }
    {
        &self.held[..self.len]
    }

    // Begins the next line.
    pub fn clear(&mut self)
        ensures { self.new ≡ [] }
    {
        self.len = 0;
    }

    fn keep(&mut self, bytes: &[u8])
        ensures { self.new ≡ take KEEP (self.old ++ bytes.now) }
    {
        let n = bytes.len().min(KEEP - self.len);
        let end = self.len + n;
        self.held[self.len..end].copy_from_slice(&bytes[..n]);
        self.len = end;
    }

    // Takes the bytes up to the first line feed. Answers what follows it in the chunk, or None where there is none.
    pub fn feed<'a>(&mut self, chunk: &'a [u8]) -> Option<&'a [u8]>
        ensures held { self.new ≡ take KEEP (self.old ++ line_part chunk.now) }
        ensures value { option_copied result ≡ rest chunk.now }
        ensures shorter { IfSome result (λ rest. length rest.now < length chunk.now) }
    {
        let Some(n) = find_feed(chunk) else {
            self.keep(chunk);
            return None;
        };
        self.keep(&chunk[..n]);
        Some(&chunk[n + 1..])
    }

    // Hands each line that ends in the chunk to the sink, and keeps what follows the last. A line that it refuses is
    // the last one handed on, and is held.
    pub fn each_line<S: LineSink>(&mut self, chunk: &[u8], sink: &mut S) -> io::Result<()>
        ensures handed { Handed S.takes
            sink.old (lines self.old chunk.now) result sink.new self.new }
        ensures kept { OnOk result (self.new ≡ left self.old chunk.now) }
    {
        let mut text = chunk;
        while let Some(rest) = self.feed(text) {
            sink.take(self.line())?;
            self.clear();
            text = rest;
        }
        Ok(())
    }

    // Hands on what is held, at the end of the input: a last line that lacks its line feed, if it has a byte.
    fn end<S: LineSink>(&self, sink: &mut S) -> io::Result<()>
        ensures { S.takes sink.old (unended_line self.now) result sink.new }
    {
        if self.line().is_empty() {
            return Ok(());
        }
        sink.take(self.line())
    }
}

// A cutter that holds the line already.
impl From<&[u8]> for Cutter {
    ghost use Rattle.input.specs.declared.TheConstants.{KEEP};

    ghost from_gives = { λ line cutter. cutter ≡ take KEEP line.now };

    fn from(line: &[u8]) -> Cutter {
        let mut cutter = Cutter::new();
        cutter.keep(line);
        cutter
    }
}
