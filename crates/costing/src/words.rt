// What a refusal says in words: the text that it prints, spelled out in specs/Words.
ghost use Rattle.std.specs.Prelude.{Some};
ghost use Rattle.costing.specs.Words.{refusal_words};

use crate::Refusal;
use std::fmt;

impl fmt::Display for Refusal {
    ghost output = { λ refusal. Some (refusal_words refusal) };

    fn fmt<W: fmt::Write>(&self, f: &mut fmt::Formatter<W>) -> fmt::Result {
        match self {
            Refusal::Equation(fault) => {
                let place = fault.place();
                write!(f, "the equation's line {fault}, place {place}")
            }
            Refusal::Plan(fault) => {
                let place = fault.place();
                write!(f, "the plan's line {fault}, place {place}")
            }
            Refusal::Count => {
                write!(
                    f,
                    "the plan has not 1 to 24 numbers, or the equation has not one more"
                )
            }
            Refusal::Overflow => {
                write!(f, "a running sum is not within -2147483647 to 2147483647")
            }
        }
    }
}
