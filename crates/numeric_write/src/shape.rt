// Which digits of a fraction stand in the groups of its package.
#[derive(Clone, Copy)]
pub(crate) enum Shape {
    // The whole part is 0. So many zeros of the fraction, whole groups of them, are passed over.
    Below { passed: u8 },
    // The whole part and the fraction.
    Mixed,
    // A whole number. So many zero groups at its end are left out.
    Whole { zeros: u8 },
}
