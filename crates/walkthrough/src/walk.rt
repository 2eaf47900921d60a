// A run, and what is written of it.
use crate::{report, rows};
use kinds::kind::Kind;
use kinds::weekday::Weekday;
use kinds::whole::Whole;
use runs::run::run;
use runs::step::Step;
use std::io;
use std::io::Write;

// How many bytes the page has, of which each showing of a list is lent a part.
pub const PAGE: usize = 100;

// A kind of number that has a name.
pub trait Named: Kind {
    const NAME: &'static str;
}

impl Named for Whole {
    const NAME: &'static str = "whole numbers";
}

impl Named for Weekday {
    const NAME: &'static str = "weekday numbers";
}

// What a sheet is opened with, and how many words each call is lent for a plan.
#[derive(Clone, Copy)]
pub struct Opening {
    pub unknowns: i32,
    pub list: i32,
    pub words: usize,
}

// Makes the calls of the steps on a sheet from its opening on, and writes each with its answer, the sheet that is left,
// and the plan that was picked last.
pub fn walk<K: Named, W: Write>(
    out: &mut W,
    opening: Opening,
    cells: &mut [K::Cell],
    steps: &mut [Step],
) -> io::Result<()> {
    let Opening {
        unknowns,
        list,
        words,
    } = opening;
    let kind = K::NAME;
    let cell_count = cells.len();
    writeln!(
        out,
        "{kind}, {unknowns} unknowns, list {list}; {cell_count} cells, {words} plan words, a page of {PAGE} bytes"
    )?;
    let outline = run::<K>(cells, unknowns, list, steps);
    report::steps(out, steps)?;
    rows::sheet::<K, W>(out, outline, cells)?;
    report::plan(out, steps)
}
