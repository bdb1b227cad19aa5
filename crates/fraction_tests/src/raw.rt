// Fractions that stay as they are given.
use fraction::fault::FractionFault;
use fraction::generic_fraction::GenericFraction;
use generic::integer::GenericInteger;
use generic::sign::Sign;
use packed::packed_decimal::PackedDecimal;
use std::process::Abort;

// The sign, the numerator and the denominator, 0 where there is none.
fn read<T: GenericInteger>(
    made: Result<GenericFraction<T>, FractionFault>,
) -> Result<(Option<Sign>, u64, u64), FractionFault> {
    let f = made?;
    let numer = f.numer().unwrap_or(T::zero()).to_u64();
    let denom = f.denom().unwrap_or(T::zero()).to_u64();
    Ok((f.sign(), numer, denom))
}

fn stays<T: GenericInteger>(rt: &impl Abort) {
    let two = T::from_u16(2);
    let four = T::from_u16(4);
    assert_eq!(rt;
        read(GenericFraction::new_raw(two, four)),
        Ok((Some(Sign::Plus), 2, 4))
    );
    assert_eq!(rt;
        read(GenericFraction::new_raw_signed(Sign::Minus, two, four)),
        Ok((Some(Sign::Minus), 2, 4))
    );
}

fn refused<T: GenericInteger>(rt: &impl Abort) {
    assert_eq!(rt;
        read(GenericFraction::new_raw(T::one(), T::zero())),
        Err(FractionFault::ZeroDenominator)
    );
    assert_eq!(rt;
        read(GenericFraction::new_raw_signed(Sign::Minus, T::zero(), T::zero())),
        Err(FractionFault::ZeroDenominator)
    );
}

#[test]
fn not_reduced(rt: HostRuntime) {
    stays::<u16>(&rt);
    stays::<u64>(&rt);
    stays::<PackedDecimal>(&rt);
}

#[test]
fn a_denominator_of_0_is_refused(rt: HostRuntime) {
    refused::<u16>(&rt);
    refused::<u64>(&rt);
    refused::<PackedDecimal>(&rt);
}
