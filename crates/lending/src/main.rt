// Makes a list of calls on one sheet, each on memory of its own, enough or too little, and writes what each was lent,
// what it was answered, and what it left there.

#![tactic(auto)]

use std::io;
use std::io::{BufWriter, Write};

mod list;
mod memory;
mod report;

fn main(rt: HostRuntime) -> io::Result<()> {
    let mut out = BufWriter::new(rt.alloc(), rt.stdout())?;
    let requests = list::requests();
    let mut words = [memory::WORD; list::WORDS];
    let mut bytes = [memory::BYTE; list::BYTES];
    let answers = list::answers(&requests, &mut words, &mut bytes);
    report::calls(&mut out, &requests, &answers, &words, &bytes)?;
    out.flush()
}
