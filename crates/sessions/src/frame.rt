// What a line asks of a session.
ghost use Rattle.std.specs.Prelude.{◌≡◌};
ghost use Rattle.sessions.specs.Frames.{frame_named, kind_named, call_for, call_found, answer_place, placed, Placeable};

use faults::{LineFault, NumberFault, SheetFault};
use kinds::kind::Kind;
use kinds::weekday::Weekday;
use kinds::whole::Whole;
use sheets::call::{Answer, Call};

/// The frames that a session knows.
pub const KNOWN: [u8; 5] = [0x01, 0x02, 0x03, 0x04, 0x05];

/// What a line asks of the sheet that is open.
#[derive(Clone, Copy, Debug, PartialEq, Eq)]
pub enum Request {
    Equation,
    Clear,
    Pick,
    Show,
}

impl Request {
    // The call that the request asks for with a line's numbers.
    pub(crate) fn call(self, numbers: &[i32]) -> Result<Call<'_>, SheetFault>
        ensures { call_found result ≡ call_for self numbers.now }
    {
        match self {
            Request::Equation => Ok(Call::Post(numbers)),
            Request::Pick => Ok(Call::Pick(numbers)),
            Request::Clear if numbers.is_empty() => Ok(Call::Clear),
            Request::Show if numbers.is_empty() => Ok(Call::Show),
            Request::Clear | Request::Show => Err(SheetFault::Count),
        }
    }
}

/// What a line asks for.
#[derive(Clone, Copy, Debug, PartialEq, Eq)]
pub enum Frame {
    Open,
    Ask(Request),
}

/// The kind of number that an opening chooses.
#[derive(Clone, Copy, Debug, PartialEq, Eq)]
pub enum Chosen {
    Whole,
    Weekday,
}

impl TryFrom<u8> for Frame {
    type Error = LineFault;

    ghost try_from_gives = { λ frame result. result ≡ frame_named frame };

    fn try_from(frame: u8) -> Result<Frame, LineFault> {
        match frame {
            0x01 => Ok(Frame::Open),
            0x02 => Ok(Frame::Ask(Request::Equation)),
            0x03 => Ok(Frame::Ask(Request::Clear)),
            0x04 => Ok(Frame::Ask(Request::Pick)),
            0x05 => Ok(Frame::Ask(Request::Show)),
            _ => Err(LineFault::Frame),
        }
    }
}

// The kind with a modulus.
impl TryFrom<i32> for Chosen {
    type Error = NumberFault;

    ghost try_from_gives = { λ modulus result. result ≡ kind_named modulus };

    fn try_from(modulus: i32) -> Result<Chosen, NumberFault> {
        match u32::try_from(modulus) {
            Ok(Whole::MODULUS) => Ok(Chosen::Whole),
            Ok(Weekday::MODULUS) => Ok(Chosen::Weekday),
            _ => Err(NumberFault::Modulus),
        }
    }
}

// A direct call's fault, with its place in the line whose numbers were handed to the call.
pub(crate) fn placed_in_line(fault: SheetFault) -> SheetFault
    requires { Placeable fault }
    ensures { result ≡ placed fault }
{
    match fault {
        SheetFault::Count => SheetFault::Line(LineFault::Count),
        SheetFault::Number(NumberFault::Unknowns) => {
            SheetFault::Line(LineFault::Number(NumberFault::Unknowns, 12))
        }
        SheetFault::Number(NumberFault::ListNumber) => {
            SheetFault::Line(LineFault::Number(NumberFault::ListNumber, 20))
        }
        SheetFault::Number(NumberFault::NotAdmitted(index)) => {
            SheetFault::Line(LineFault::Number(NumberFault::NotAdmitted(index), 4 + 8 * index))
        }
        other => other,
    }
}

// The place of an answer: the byte of the line at fault, or -1 for none, as the format writes it.
pub(crate) fn place_of(answer: Answer) -> i32
    ensures { result ≡ answer_place answer }
{
    match answer {
        Ok(_) => -1,
        Err(fault) => fault.place(),
    }
}
