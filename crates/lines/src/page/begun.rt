// The line that is begun on a page.
ghost use Rattle.std.specs.Prelude.{◌≤◌};
ghost use Rattle.lines.specs.Line.{most_numbers};

#[derive(Clone, Copy)]
pub(super) struct Begun {
    // How many numbers the line has room for, and how many were put; their digits are in the page's bytes.
    pub(super) room: usize,
    pub(super) put: usize,
    ghost few: { room ≤ most_numbers },
    ghost less: { put ≤ room },
}
