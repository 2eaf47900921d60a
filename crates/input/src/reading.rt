// Reading the lines of an input.
ghost use Rattle.input.specs.Reading.{LinesTaken};

use crate::Cutter;
use crate::sink::LineSink;
use std::io;
use std::io::BufRead;

// Hands the lines of the input to the sink, each cut to its first bytes, until the input is at its end or the sink is
// done. A last line that lacks its line feed counts if it has a byte. The input is taken a chunk at a time; before more
// is waited for the sink is flushed, and a chunk at which it fails is not taken.
pub fn take_lines<R: BufRead, S: LineSink>(input: &mut R, sink: &mut S) -> io::Result<()>
    ensures { LinesTaken S.takes S.done
        sink.old (R.remaining input.old) result sink.new (R.remaining input.new) }
{
    let mut cutter = Cutter::new();
    // Counted: nothing that a reader says of what is left would show that a plain loop ends. The label names the loop
    // in its proof.
    'chunks: for _ in 0..u64::MAX {
        let chunk = input.fill_buf()?;
        let len = chunk.len();
        if len == 0 {
            return cutter.end(sink);
        }
        cutter.each_line(chunk, sink)?;
        sink.flush()?;
        input.consume(len);
        if sink.is_done() {
            return Ok(());
        }
    }
    // The input does not end.
    Err(io::ErrorKind::Other.into())
}
