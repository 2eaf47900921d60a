// The functions of the weekday kind.
ghost use Rattle.std.specs.Prelude.{◌≡◌, refl, ◌%◌, ◌^◌, ◌<◌};
ghost use Rattle.kinds.specs.Weekday.{weekdays, day};
ghost use Rattle.kinds.specs.Weekdays.{weekday_laws};

use super::{Weekday, WeekdayCell};
use crate::kind::Kind;

// The remainder of n by 7.
fn reduce(n: u32) -> Weekday
    ensures { result ≡ day n }
{
    Weekday {
        value: (n % 7) as u8,
    }
}

// The fifth power, which is the inverse modulo 7 of each number but 0.
#[tactic(auto, using(crate::specs::Weekdays::fifth_below))]
fn fifth(d: Weekday) -> u32
    ensures value { result ≡ d.value ^ 5 }
    ensures below { result < 7777 }
{
    u32::from(d.value).pow(5)
}

impl Kind for Weekday {
    const MODULUS: u32 = 7;

    ghost MODULUS = { 7 };

    type Cell = WeekdayCell;

    ghost arith = { weekdays };

    ghost modulus_is = { refl };

    ghost kept = { weekday_laws };

    fn read(word: i32) -> Option<Weekday> {
        match word {
            0..=6 => Some(reduce(word as u32)),
            _ => None,
        }
    }

    fn write(self) -> i32 {
        self.value as i32
    }

    fn to_cell(self) -> WeekdayCell {
        WeekdayCell { value: self.value }
    }

    fn from_cell(cell: WeekdayCell) -> Option<Weekday> {
        match cell.value {
            0..=6 => Some(reduce(cell.value as u32)),
            _ => None,
        }
    }

    fn zero() -> Weekday {
        reduce(0)
    }

    fn one() -> Weekday {
        reduce(1)
    }

    fn negative(self) -> Weekday {
        reduce(7 - self.value as u32)
    }

    fn add_product(self, q: Weekday, d: Weekday) -> Option<Weekday> {
        Some(reduce(self.value as u32 + q.value as u32 * d.value as u32))
    }

    fn smaller(self, other: Weekday) -> bool {
        other.value != 0 && self.value == 0
    }

    fn quotient(self, d: Weekday) -> Option<Weekday> {
        (d.value != 0).then(|| reduce(self.value as u32 * fifth(d)))
    }

    fn unit(self) -> Weekday {
        if self.value == 0 {
            return reduce(1);
        }
        reduce(fifth(self))
    }
}
