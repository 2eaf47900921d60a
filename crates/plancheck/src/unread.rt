// A line that could not be read, as text.
ghost use Rattle.std.specs.Prelude.{◌∷◌, [], Some};
ghost use Rattle.plancheck.specs.Unread.{glyph, unread};

use std::fmt;

// As much of the line as is shown.
const SHOWN: usize = 60;

// A byte, or a dot where it is no printable ASCII.
#[derive(Clone, Copy)]
struct Glyph(u8);

impl fmt::Display for Glyph {
    ghost output = { λ g. Some (glyph g.0 ∷ []) };

    fn fmt<W: fmt::Write>(&self, f: &mut fmt::Formatter<W>) -> fmt::Result {
        let c = match self.0 {
            b' '..=b'~' => self.0 as char,
            _ => '.',
        };
        write!(f, "{c}")
    }
}

// The line's first bytes.
#[derive(Clone, Copy)]
pub struct Unread<'a>(pub &'a [u8]);

impl fmt::Display for Unread<'_> {
    ghost output = { λ u. Some (unread u.0.now) };

    fn fmt<W: fmt::Write>(&self, f: &mut fmt::Formatter<W>) -> fmt::Result {
        let shown = &self.0[..self.0.len().min(SHOWN)];
        write!(f, "not read: \"")?;
        for b in shown {
            let glyph = Glyph(*b);
            write!(f, "{glyph}")?;
        }
        let end = if self.0.len() > SHOWN { "...\"" } else { "\"" };
        write!(f, "{end}")
    }
}
