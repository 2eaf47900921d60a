// Runs lists of calls on sheets of both kinds, good calls and refused ones, and writes what came of each and what is
// left.

#![tactic(auto)]

use kinds::weekday::{Weekday, WeekdayCell};
use kinds::whole::{Whole, WholeCell};
use std::io;
use std::io::{BufWriter, Write};
use walk::Opening;

mod calls;
mod memory;
mod report;
mod rows;
mod walk;

const WHOLES: Opening = Opening {
    unknowns: 3,
    list: 7,
    words: 3,
};

const WEEKDAYS: Opening = Opening {
    unknowns: 3,
    list: 8,
    words: 3,
};

// The words lent for a plan are too few.
const FEW_WORDS: Opening = Opening {
    unknowns: 3,
    list: 8,
    words: 2,
};

// No sheet has so many unknowns.
const TOO_MANY: Opening = Opening {
    unknowns: 25,
    list: 7,
    words: 3,
};

// As many cells as a sheet of 3 unknowns needs: they are fixed arrays, with no heap.
const NEEDED: usize = 28;

fn main(rt: HostRuntime) -> io::Result<()> {
    let mut out = BufWriter::new(rt.alloc(), rt.stdout())?;
    let mut wholes = [WholeCell { value: 0 }; NEEDED];
    let mut weekdays = [WeekdayCell { value: 0 }; NEEDED];
    calls::wholes(&mut out, WHOLES, &mut wholes)?;
    calls::weekdays(&mut out, WEEKDAYS, &mut weekdays)?;
    calls::few::<Weekday, _>(&mut out, FEW_WORDS, &mut weekdays)?;
    // The sheet cannot be opened: its unknowns are too many.
    calls::few::<Whole, _>(&mut out, TOO_MANY, &mut wholes)?;
    // The sheet cannot be opened: a cell is lacking.
    calls::few::<Weekday, _>(&mut out, WEEKDAYS, &mut weekdays[1..])?;
    out.flush()
}
