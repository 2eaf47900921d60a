// Theorems about the laws of a kind.
ghost use Rattle.kinds.specs.KindSamples.{KindSamples, PrimeModulus};

use crate::kind::Kind;

// In every kind the modulus is 0 or a prime number.
pub fn modulus_zero_or_prime<K: Kind>()
    ensures { PrimeModulus K.arith }
{}

// Records of functions that break a law are no kinds.
pub fn laws_refuse()
    ensures { KindSamples }
{}
