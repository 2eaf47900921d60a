// What each fault says in words: the text that it prints, spelled out in specs/Words, and that it is an error.
ghost use Rattle.std.specs.Prelude.{Some};
ghost use Rattle.faults.specs.Words.{number_words, line_words, page_words, sheet_words};

use crate::{LineFault, NumberFault, PageFault, SheetFault};
use std::error::Error;
use std::fmt;

impl fmt::Display for NumberFault {
    ghost output = { λ fault. Some (number_words fault) };

    fn fmt<W: fmt::Write>(&self, f: &mut fmt::Formatter<W>) -> fmt::Result {
        match self {
            NumberFault::Lowest => write!(f, "no kind holds the number 80000000"),
            NumberFault::Modulus => write!(f, "no kind has this modulus"),
            NumberFault::Unknowns => write!(f, "the unknowns are not 1 to 24"),
            NumberFault::ListNumber => write!(f, "the list number is not 0 to 65535"),
            NumberFault::NotAdmitted(index) => {
                write!(f, "the kind does not admit word {index}, counted from 0")
            }
        }
    }
}

// The words go on from "the line".
impl fmt::Display for LineFault {
    ghost output = { λ fault. Some (line_words fault) };

    fn fmt<W: fmt::Write>(&self, f: &mut fmt::Formatter<W>) -> fmt::Result {
        match self {
            LineFault::FewWords => write!(f, "has too few words lent for its numbers"),
            LineFault::Length => write!(f, "is shorter than 4 or longer than 204 bytes"),
            LineFault::NoDigit(_) => write!(f, "has a byte that is not one of 0 to 9 and A to F"),
            LineFault::Size => write!(f, "is not as long as its count says"),
            LineFault::Frame => write!(f, "has another frame"),
            LineFault::Count => write!(f, "has another count"),
            LineFault::Number(NumberFault::Lowest, _) => write!(f, "has the number 80000000"),
            LineFault::Number(fault, _) => write!(f, "has a number at fault: {fault}"),
        }
    }
}

impl fmt::Display for PageFault {
    ghost output = { λ fault. Some (page_words fault) };

    fn fmt<W: fmt::Write>(&self, f: &mut fmt::Formatter<W>) -> fmt::Result {
        match self {
            PageFault::NoRoom => write!(f, "the page cannot take it"),
            PageFault::LineBegun => write!(f, "a line is begun already"),
            PageFault::NoLine => write!(f, "no line is begun"),
            PageFault::TooMany => write!(f, "a line has no room for so many numbers"),
        }
    }
}

impl fmt::Display for SheetFault {
    ghost output = { λ fault. Some (sheet_words fault) };

    fn fmt<W: fmt::Write>(&self, f: &mut fmt::Formatter<W>) -> fmt::Result {
        match self {
            SheetFault::Page(fault) => write!(f, "{fault}"),
            SheetFault::Line(fault) => write!(f, "the line {fault}"),
            SheetFault::Number(fault) => write!(f, "{fault}"),
            SheetFault::NoSheet => write!(f, "the sheet has no unknowns"),
            SheetFault::Count => write!(f, "a count is not the one needed"),
            SheetFault::FewCells => write!(f, "the cells are too few"),
            SheetFault::Overflow => write!(f, "a step gives a number that cannot be stored"),
            SheetFault::Contradicted => write!(f, "contradicted"),
        }
    }
}

impl Error for NumberFault {}

impl Error for LineFault {}

impl Error for PageFault {}

impl Error for SheetFault {}
