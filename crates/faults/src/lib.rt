// The faults, by layer. Each holds the lower layer's fault whole; its number and place are spelled out in specs/Faults.

#![tactic(auto)]

ghost use Rattle.std.specs.Prelude.{◌≡◌};
ghost use Rattle.faults.specs.Faults.{number_fault, line_fault, line_place, page_fault, sheet_fault, sheet_place};
ghost use Rattle.faults.specs.declared.SheetFault.TheVariants.{Line, Page};

mod words;

// What is wrong with one number.
#[derive(Clone, Copy, Debug, PartialEq, Eq)]
pub enum NumberFault {
    // It is -2147483648, the digits 80000000, which no kind holds.
    Lowest,
    // It is no modulus of a kind.
    Modulus,
    // It is no number of unknowns: these are 1 to 24.
    Unknowns,
    // It is no list number: these are 0 to 65535.
    ListNumber,
    // The kind does not admit it: the word's index among those of the call, the first such.
    NotAdmitted(u8),
}

// What is wrong with a line.
#[derive(Clone, Copy, Debug, PartialEq, Eq)]
pub enum LineFault {
    // The words lent for its numbers are under 25.
    FewWords,
    // It is shorter than 4 or longer than 204 bytes.
    Length,
    // The byte at this place is no digit, the first such.
    NoDigit(u8),
    // It is not as long as its count says.
    Size,
    // The caller does not know its frame.
    Frame,
    // Its count is not the one needed.
    Count,
    // A number of it is at fault; the place is the number's first digit.
    Number(NumberFault, u8),
}

// Why a page refuses.
#[derive(Clone, Copy, Debug, PartialEq, Eq)]
pub enum PageFault {
    // The rest of the page cannot take what is to be written.
    NoRoom,
    // A line is begun already.
    LineBegun,
    // No line is begun.
    NoLine,
    // More numbers than a line has room for.
    TooMany,
}

// Why a call on a sheet refuses.
#[derive(Clone, Copy, Debug, PartialEq, Eq)]
pub enum SheetFault {
    Page(PageFault),
    Line(LineFault),
    // A number that a direct caller gave, so that it has no place.
    Number(NumberFault),
    // No sheet is open, or the sheet has no unknowns.
    NoSheet,
    // The count of numbers that a direct caller gave is not the one needed.
    Count,
    // The cells that a direct caller lent are too few.
    FewCells,
    // A step gave a number that cannot be stored.
    Overflow,
    // No plan meets the equation and those in force.
    Contradicted,
}

// A fault's number, as lines carry it. A method and no `From`: several faults have the same number, so that none can be
// told from it.
impl NumberFault {
    pub fn number(self) -> u8
        ensures { result ≡ number_fault self }
    {
        match self {
            NumberFault::Lowest => 7,
            NumberFault::Modulus => 10,
            NumberFault::Unknowns => 11,
            NumberFault::ListNumber => 12,
            NumberFault::NotAdmitted(_) => 14,
        }
    }
}

impl LineFault {
    pub fn number(self) -> u8
        ensures { result ≡ line_fault self }
    {
        match self {
            LineFault::FewWords => 2,
            LineFault::Length => 3,
            LineFault::NoDigit(_) => 4,
            LineFault::Size => 5,
            LineFault::Frame => 6,
            LineFault::Count => 9,
            LineFault::Number(fault, _) => fault.number(),
        }
    }

    // The byte of the line, counted from 0, or -1. Kept as one number: the format writes a place so, -1 for none.
    pub fn place(self) -> i32
        ensures { result ≡ line_place self }
    {
        match self {
            LineFault::FewWords | LineFault::Length => -1,
            LineFault::NoDigit(place) | LineFault::Number(_, place) => place as i32,
            LineFault::Size | LineFault::Count => 2,
            LineFault::Frame => 0,
        }
    }
}

impl PageFault {
    pub fn number(self) -> u8
        ensures { result ≡ page_fault self }
    {
        match self {
            PageFault::NoRoom | PageFault::LineBegun | PageFault::NoLine => 2,
            PageFault::TooMany => 9,
        }
    }
}

impl SheetFault {
    pub fn number(self) -> u8
        ensures { result ≡ sheet_fault self }
    {
        match self {
            SheetFault::Page(fault) => fault.number(),
            SheetFault::Line(fault) => fault.number(),
            SheetFault::Number(fault) => fault.number(),
            SheetFault::NoSheet => 8,
            SheetFault::Count => 9,
            SheetFault::FewCells => 13,
            SheetFault::Overflow => 15,
            SheetFault::Contradicted => 16,
        }
    }

    // The byte of the line at fault, or -1 where no line is: a number for the same reason.
    pub fn place(self) -> i32
        ensures { result ≡ sheet_place self }
    {
        match self {
            SheetFault::Line(fault) => fault.place(),
            _ => -1,
        }
    }
}

impl From<LineFault> for SheetFault {
    ghost from_gives = { λ lower whole. whole ≡ Line lower };

    fn from(lower: LineFault) -> SheetFault {
        SheetFault::Line(lower)
    }
}

impl From<PageFault> for SheetFault {
    ghost from_gives = { λ lower whole. whole ≡ Page lower };

    fn from(lower: PageFault) -> SheetFault {
        SheetFault::Page(lower)
    }
}
