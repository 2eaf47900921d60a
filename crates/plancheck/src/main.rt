// Checks plans against equations: reads pairs of lines, an equation and a plan, from standard input to its end, makes
// the costing call on each, and writes in plain words what it read and what came of it.

#![tactic(auto)]

ghost use Rattle.std.specs.Prelude.{false, ⊤};

use input::Cutter;
use input::reading::take_lines;
use input::sink::LineSink;
use std::io;
use std::io::{BufReader, BufWriter, Write};

mod report;
mod unread;

// The pair that is being read, and where pairs are reported.
#[derive(Drop)]
struct Pairs<'a, W> {
    // The equation, where its line was read; then the next line is its plan.
    equation: Option<Cutter>,
    // How many lines were read.
    lines: u64,
    out: &'a mut W,
}

impl<'a, W: Write> Pairs<'a, W> {
    fn new(out: &'a mut W) -> Pairs<'a, W> {
        Pairs {
            equation: None,
            lines: 0,
            out,
        }
    }

    // The input is at its end: an equation that has no plan is reported.
    fn finish(&mut self) -> io::Result<()> {
        match &self.equation {
            Some(equation) => report::without_plan(self.out, self.lines, equation.line()),
            None => Ok(()),
        }
    }
}

// Nothing is said of what is written: the program is tested.
impl<W: Write> LineSink for Pairs<'_, W> {
    ghost takes = { λ _ _ _ _. ⊤ };

    ghost done = { λ _. false };

    ghost takes_none = { λ _. tt };

    ghost takes_both = { λ _ _ _ _ _ _ _ _. tt };

    // With a plan's line the pair is complete and reported.
    fn take(&mut self, line: &[u8]) -> io::Result<()> {
        self.lines = self.lines.saturating_add(1);
        match self.equation.take() {
            Some(equation) => report::pair(self.out, self.lines, equation.line(), line),
            None => {
                self.equation = Some(Cutter::from(line));
                Ok(())
            }
        }
    }

    fn flush(&mut self) -> io::Result<()> {
        self.out.flush()
    }

    // Every line is read.
    fn is_done(&self) -> bool {
        false
    }
}

fn main(rt: HostRuntime) -> io::Result<()> {
    let mut input = BufReader::new(rt.alloc(), rt.stdin())?;
    let mut out = BufWriter::new(rt.alloc(), rt.stdout())?;
    let mut pairs = Pairs::new(&mut out);
    take_lines(&mut input, &mut pairs)?;
    pairs.finish()?;
    out.flush()
}
