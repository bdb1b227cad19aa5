// Why a word is no packed decimal.
#[derive(Clone, Copy, PartialEq, Eq, Debug)]
pub enum PackedFault {
    // Four of its bits are above 9.
    NotDecimal,
}
