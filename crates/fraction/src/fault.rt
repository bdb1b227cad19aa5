// Why two numbers make no fraction.
#[derive(Clone, Copy, PartialEq, Eq, Debug)]
pub enum FractionFault {
    // 7: the denominator is 0.
    ZeroDenominator,
}
