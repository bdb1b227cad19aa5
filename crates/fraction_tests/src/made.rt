// Fractions that are reduced, and the values that are no number.
use fraction::generic_fraction::GenericFraction;
use generic::integer::GenericInteger;
use generic::sign::Sign;
use packed::packed_decimal::PackedDecimal;
use std::process::Abort;

// The numerator and the denominator.
fn parts<T: GenericInteger>(f: GenericFraction<T>) -> Option<(u64, u64)> {
    Some((f.numer()?.to_u64(), f.denom()?.to_u64()))
}

fn made<T: GenericInteger>(n: u16, d: u16) -> GenericFraction<T> {
    GenericFraction::new(T::from_u16(n), T::from_u16(d))
}

fn made_neg<T: GenericInteger>(n: u16, d: u16) -> GenericFraction<T> {
    GenericFraction::new_neg(T::from_u16(n), T::from_u16(d))
}

fn reduced<T: GenericInteger>(rt: &impl Abort) {
    assert_eq!(rt; parts(made::<T>(2, 4)), Some((1, 2)));
    assert_eq!(rt; parts(made::<T>(3, 4)), Some((3, 4)));
    assert_eq!(rt; parts(made::<T>(65520, 1176)), Some((390, 7)));
    assert_eq!(rt; parts(made::<T>(0, 7)), Some((0, 1)));
    assert_eq!(rt; made::<T>(0, 7).sign(), Some(Sign::Plus));
    assert_eq!(rt; parts(made_neg::<T>(6, 3)), Some((2, 1)));
    assert_eq!(rt; made_neg::<T>(6, 3).sign(), Some(Sign::Minus));
}

fn zeros<T: GenericInteger>(rt: &impl Abort) {
    assert_eq!(rt; parts(made_neg::<T>(0, 7)), Some((0, 1)));
    assert_eq!(rt; made_neg::<T>(0, 7).sign(), Some(Sign::Minus));
    assert!(rt; made_neg::<T>(0, 7).is_zero());
    assert_eq!(rt; parts(GenericFraction::<T>::neg_zero()), Some((0, 1)));
    assert_eq!(rt; GenericFraction::<T>::zero().sign(), Some(Sign::Plus));
    assert!(rt; !made::<T>(1, 7).is_zero());
}

fn over_nothing<T: GenericInteger>(rt: &impl Abort) {
    assert!(rt; made::<T>(5, 0).is_infinite());
    assert_eq!(rt; made::<T>(5, 0).sign(), Some(Sign::Plus));
    assert_eq!(rt; made_neg::<T>(5, 0).sign(), Some(Sign::Minus));
    assert_eq!(rt; parts(made::<T>(5, 0)), None);
    assert!(rt; made::<T>(0, 0).is_nan());
    assert_eq!(rt; made_neg::<T>(0, 0).sign(), None);
    assert!(rt; !made::<T>(0, 0).is_zero());
}

#[test]
fn in_lowest_terms(rt: HostRuntime) {
    reduced::<u16>(&rt);
    reduced::<u64>(&rt);
    reduced::<PackedDecimal>(&rt);
}

#[test]
fn zeros_of_both_signs(rt: HostRuntime) {
    zeros::<u16>(&rt);
    zeros::<u64>(&rt);
    zeros::<PackedDecimal>(&rt);
}

#[test]
fn a_denominator_of_0(rt: HostRuntime) {
    over_nothing::<u16>(&rt);
    over_nothing::<u64>(&rt);
    over_nothing::<PackedDecimal>(&rt);
}
