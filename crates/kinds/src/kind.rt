// What a kind of number does, each function by equality with the kind's own record, and the laws that it keeps.
ghost use Rattle.std.specs.Prelude.{◌≡◌, ℕ, ◌==◌, nat_lt};
ghost use Rattle.kinds.specs.Kind.{Arithmetic, Laws};

// A kind of number. The implementor is the number itself, always a stored one. Its conversions are methods and no
// `From` or `TryFrom`: the record of functions states each.
pub trait Kind: Copy {
    // Two whole numbers that differ by a multiple of this are the same in the kind.
    const MODULUS: u32;

    ghost MODULUS: { ℕ };

    // A plain record that may hold anything.
    type Cell: Copy;

    ghost arith: { Arithmetic Self Self.Cell };

    // The modulus that the laws speak of. This body serves every kind, since MODULUS is that modulus.
    fn modulus_value() -> u32
        ensures { result ≡ arith.modulus }
    {
        Self::MODULUS
    }

    // The number that a word means, or None where the kind does not admit the word.
    fn read(word: i32) -> Option<Self>
        ensures { result ≡ arith.read word };

    // The number as an admitted word.
    fn write(self) -> i32
        ensures { result ≡ arith.write self };

    fn to_cell(self) -> Self::Cell
        ensures { result ≡ arith.to_cell self };

    // The number in a cell, or None where the cell does not pass the check.
    fn from_cell(cell: Self::Cell) -> Option<Self>
        ensures { result ≡ arith.from_cell cell };

    fn zero() -> Self
        ensures { result ≡ arith.zero };

    fn one() -> Self
        ensures { result ≡ arith.one };

    fn negative(self) -> Self
        ensures { result ≡ arith.negative self };

    // self + q × d, or None where that cannot be stored.
    fn add_product(self, q: Self, d: Self) -> Option<Self>
        ensures { result ≡ arith.add_product self q d };

    // Whether the size is below the other's.
    fn smaller(self, other: Self) -> bool
        ensures { result ≡ nat_lt (arith.size self) (arith.size other) };

    // Whether the number is the same as 0. This body serves every kind, by the laws.
    fn is_zero(self) -> bool
        ensures { result ≡ (arith.size self == 0) }
    {
        !Self::zero().smaller(self)
    }

    // What to take of d, so that what is left of self is smaller than d; None where d is the same as 0.
    fn quotient(self, d: Self) -> Option<Self>
        ensures { result ≡ arith.quotient self d };

    // What a column with this number as its top is multiplied by to normalise it.
    fn unit(self) -> Self
        ensures { result ≡ arith.unit self };

    ghost modulus_is: { MODULUS ≡ arith.modulus };

    ghost kept: { Laws arith };
}
