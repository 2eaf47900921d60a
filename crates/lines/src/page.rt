// A page: lent bytes with an end, and the line that is begun there; and the token that is owed for that line.
ghost use Rattle.std.specs.Prelude.{◌≡◌, ◌+◌, ◌≤◌, length};
ghost use Rattle.std.specs.Option.{option_map_or};
ghost use Rattle.lines.specs.Line.{written_length};

use begun::Begun;
use faults::PageFault;

mod begun;
mod calls;

// Kept without an `impl Model`: callers also need to know whose bytes the page holds, which no model's value tells.
#[derive(Drop)]
pub struct Page<'a> {
    bytes: &'a mut [u8],
    // Where the next line will begin, or where the begun one begins.
    end: usize,
    line: Option<Begun>,
    ghost fits: { end + option_map_or (λ l. written_length l.room) line 0 ≤ length bytes.now },
}

impl Page<'_> {
    // Where the lines that were closed end.
    pub fn end(&self) -> usize
        ensures { result ≡ self.now.end }
    {
        self.end
    }
}

// What is owed for a begun line. It cannot be copied or let go: closing the line, or giving it up, takes it.
pub struct LineToken {
    own: (),
}

// A close or a give-up that was refused: the token is still owed.
pub struct Owed {
    pub token: LineToken,
    pub fault: PageFault,
}
