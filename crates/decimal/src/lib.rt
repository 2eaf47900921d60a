// Numbers of a sheet in decimal: an equation, a plan and a row. What each prints is spelled out in specs/Decimal.

#![tactic(auto)]

ghost use Rattle.std.specs.Prelude.{Some};
ghost use Rattle.decimal.specs.Decimal.{term, side, equation, entry, plan, row};

use std::fmt;

// A coefficient with its unknown, which is counted from 1, and the sign that joins it to those before.
#[derive(Clone, Copy)]
struct Term {
    unknown: usize,
    coefficient: i32,
}

impl fmt::Display for Term {
    ghost output = { λ t. Some (term t.unknown t.coefficient) };

    fn fmt<W: fmt::Write>(&self, f: &mut fmt::Formatter<W>) -> fmt::Result {
        let unknown = self.unknown;
        let size = self.coefficient.unsigned_abs();
        let sign = match (unknown > 1, self.coefficient < 0) {
            (true, true) => " - ",
            (true, false) => " + ",
            (false, true) => "-",
            (false, false) => "",
        };
        write!(f, "{sign}{size} x{unknown}")
    }
}

// The coefficients of an equation. Side, Plan and Row have a loop each: one that takes a closure would be longer.
#[derive(Clone, Copy)]
struct Side<'a>(&'a [i32]);

impl fmt::Display for Side<'_> {
    ghost output = { λ s. Some (side s.0.now) };

    fn fmt<W: fmt::Write>(&self, f: &mut fmt::Formatter<W>) -> fmt::Result {
        if self.0.is_empty() {
            return write!(f, "0");
        }
        for (i, coefficient) in self.0.iter().enumerate() {
            let term = Term {
                unknown: i + 1,
                coefficient: *coefficient,
            };
            write!(f, "{term}")?;
        }
        Ok(())
    }
}

// The coefficients of an equation and then its right side.
#[derive(Clone, Copy)]
pub struct Equation<'a>(pub &'a [i32]);

impl fmt::Display for Equation<'_> {
    ghost output = { λ e. Some (equation e.0.now) };

    fn fmt<W: fmt::Write>(&self, f: &mut fmt::Formatter<W>) -> fmt::Result {
        match self.0 {
            [] => write!(f, "no numbers"),
            [coefficients @ .., right] => {
                let side = Side(coefficients);
                write!(f, "{side} = {right}")
            }
        }
    }
}

// An unknown, which is counted from 1, with its number, and the comma between it and those before.
#[derive(Clone, Copy)]
struct Entry {
    unknown: usize,
    number: i32,
}

impl fmt::Display for Entry {
    ghost output = { λ e. Some (entry e.unknown e.number) };

    fn fmt<W: fmt::Write>(&self, f: &mut fmt::Formatter<W>) -> fmt::Result {
        let unknown = self.unknown;
        let number = self.number;
        let before = if unknown > 1 { ", " } else { "" };
        write!(f, "{before}x{unknown} = {number}")
    }
}

// A number for each unknown.
#[derive(Clone, Copy)]
pub struct Plan<'a>(pub &'a [i32]);

impl fmt::Display for Plan<'_> {
    ghost output = { λ p. Some (plan p.0.now) };

    fn fmt<W: fmt::Write>(&self, f: &mut fmt::Formatter<W>) -> fmt::Result {
        if self.0.is_empty() {
            return write!(f, "no numbers");
        }
        for (i, number) in self.0.iter().enumerate() {
            let entry = Entry {
                unknown: i + 1,
                number: *number,
            };
            write!(f, "{entry}")?;
        }
        Ok(())
    }
}

// Numbers alone.
#[derive(Clone, Copy)]
pub struct Row<'a>(pub &'a [i32]);

impl fmt::Display for Row<'_> {
    ghost output = { λ r. Some (row r.0.now) };

    fn fmt<W: fmt::Write>(&self, f: &mut fmt::Formatter<W>) -> fmt::Result {
        write!(f, "(")?;
        for (i, number) in self.0.iter().enumerate() {
            let before = if i > 0 { ", " } else { "" };
            write!(f, "{before}{number}")?;
        }
        write!(f, ")")
    }
}
