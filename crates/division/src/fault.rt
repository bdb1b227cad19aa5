// Why a division is refused.
#[derive(Clone, Copy, PartialEq, Eq, Debug)]
pub enum DivisionFault {
    // 7: the divisor is 0.
    ZeroDivisor,
    // 8: the divisor is not 0, and the remainder is not below it.
    RemainderNotBelow,
}
