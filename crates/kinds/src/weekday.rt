// The weekday kind: a number and its cell.
ghost use Rattle.std.specs.Prelude.{◌<◌};

pub mod arithmetic;

// A number of the weekday kind, 0 to 6.
// Kept with a ghost field and no model: seen as any natural, numbers above 6 would break the laws.
#[derive(Clone, Copy, PartialEq, Eq, Debug)]
pub struct Weekday {
    value: u8,
    ghost ok: { value < 7 },
}

// A cell of the weekday kind, which may hold anything.
#[derive(Clone, Copy, PartialEq, Eq, Debug)]
pub struct WeekdayCell {
    pub value: u8,
}
