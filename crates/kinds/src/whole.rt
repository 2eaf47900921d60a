// The whole kind: a number and its cell.
ghost use Rattle.std.specs.Prelude.{◌≤◌, unsigned_abs};

pub mod arithmetic;

// A number of the whole kind, -2147483647 to 2147483647: never -2147483648.
// Kept with a ghost field and no model: seen as any integer, numbers that cannot be stored would break the laws.
#[derive(Clone, Copy, PartialEq, Eq, Debug)]
pub struct Whole {
    value: i32,
    ghost ok: { unsigned_abs value ≤ 2147483647 },
}

// A cell of the whole kind, which may hold anything.
// Kept apart from WeekdayCell: one generic cell would need an alias of each of these two names.
#[derive(Clone, Copy, PartialEq, Eq, Debug)]
pub struct WholeCell {
    pub value: i32,
}
