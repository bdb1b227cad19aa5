// The greatest common divisor.
ghost use Rattle.generic.specs.Divisors.{GreatestDivisor};

use crate::integer::GenericInteger;
use std::cmp::Ordering;

// The greater number goes first: the other way round, Euclid's first division would only exchange the two.
pub fn gcd<T: GenericInteger>(a: T, b: T) -> T
    ensures { GreatestDivisor (T.number result) (T.number a) (T.number b) }
{
    match a.compare(b) {
        Ordering::Less => euclid(b, a),
        _ => euclid(a, b),
    }
}

// Euclid's algorithm.
fn euclid<T: GenericInteger>(a: T, b: T) -> T
    ensures { GreatestDivisor (T.number result) (T.number a) (T.number b) }
{
    let mut x = a;
    let mut y = b;
    while let Some((_, rest)) = x.div_rem(y) {
        x = y;
        y = rest;
    }
    x
}
