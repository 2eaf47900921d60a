// The functions of the whole kind.
ghost use Rattle.std.specs.Prelude.{◌≡◌, refl, ◌≤◌, pos, ◌+ℤ◌, ◌*ℤ◌, ◌≢◌, unsigned_abs};
ghost use Rattle.kinds.specs.Whole.{wholes, fitted, floor, nearest};
ghost use Rattle.kinds.specs.Wholes.{whole_laws};

use super::{Whole, WholeCell};
use crate::kind::Kind;

// The number z, if it is stored.
fn stored(z: i64) -> Option<Whole>
    ensures { result ≡ fitted z }
{
    match z {
        -2147483647..=2147483647 => Some(Whole { value: z as i32 }),
        _ => None,
    }
}

fn whole(z: i32) -> Whole
    requires { unsigned_abs z ≤ 2147483647 }
    ensures { result ≡ nearest z }
{
    Whole { value: z }
}

// c + q * d, whatever it is.
fn exact(c: Whole, q: Whole, d: Whole) -> i64
    ensures { result ≡ c.value +ℤ q.value *ℤ d.value }
{
    c.value as i64 + q.value as i64 * d.value as i64
}

// c / d rounded down.
fn rounded_down(c: Whole, d: Whole) -> i32
    requires { d.value ≢ pos 0 }
    ensures value { result ≡ floor c.value d.value }
    ensures held { unsigned_abs result ≤ 2147483647 }
{
    if d.value < 0 {
        return (-c.value).div_euclid(-d.value);
    }
    c.value.div_euclid(d.value)
}

impl Kind for Whole {
    const MODULUS: u32 = 0;

    ghost MODULUS = { 0 };

    type Cell = WholeCell;

    ghost arith = { wholes };

    ghost modulus_is = { refl };

    ghost kept = { whole_laws };

    fn read(word: i32) -> Option<Whole> {
        stored(word as i64)
    }

    fn write(self) -> i32 {
        self.value
    }

    fn to_cell(self) -> WholeCell {
        WholeCell { value: self.value }
    }

    fn from_cell(cell: WholeCell) -> Option<Whole> {
        stored(cell.value as i64)
    }

    fn zero() -> Whole {
        whole(0)
    }

    fn one() -> Whole {
        whole(1)
    }

    fn negative(self) -> Whole {
        whole(-self.value)
    }

    fn add_product(self, q: Whole, d: Whole) -> Option<Whole> {
        stored(exact(self, q, d))
    }

    fn smaller(self, other: Whole) -> bool {
        let size = self.value.unsigned_abs();
        size < other.value.unsigned_abs()
    }

    fn quotient(self, d: Whole) -> Option<Whole> {
        (d.value != 0).then(|| whole(rounded_down(self, d)))
    }

    fn unit(self) -> Whole {
        if self.value < 0 { whole(-1) } else { whole(1) }
    }
}
