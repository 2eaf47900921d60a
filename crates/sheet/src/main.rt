// The program sheet: answers the lines of standard input, up to line 1,000,000, on standard output.

#![tactic(auto)]

use std::io;
use std::io::{BufReader, BufWriter, Write};
use stream::answer_lines;

fn main(rt: HostRuntime) -> io::Result<()> {
    let mut input = BufReader::new(rt.alloc(), rt.stdin())?;
    let mut out = BufWriter::new(rt.alloc(), rt.stdout())?;
    answer_lines(&mut input, &mut out)?;
    out.flush()
}
