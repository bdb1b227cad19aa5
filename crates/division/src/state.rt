// How far a division has come. A state is moved into the call that goes on with it, and that call hands one back.
ghost use Rattle.std.specs.Prelude.{◌≡◌};

use crate::fault::DivisionFault;
pub use crate::integral_state::IntegralState;

// A division in its fraction.
#[derive(Drop)]
pub struct DivisionState<T> {
    pub(crate) remainder: T,
    pub(crate) divisor: T,
}

impl<T: Copy> DivisionState<T> {
    // Begins a division of its own, with no whole part.
    pub fn new(remainder: T, divisor: T) -> DivisionState<T>
        ensures { (result.remainder ≡ remainder) × (result.divisor ≡ divisor) }
    {
        DivisionState { remainder, divisor }
    }

    pub fn remainder(&self) -> T
        ensures { result ≡ self.now.remainder }
    {
        self.remainder
    }

    pub fn divisor(&self) -> T
        ensures { result ≡ self.now.divisor }
    {
        self.divisor
    }
}

// The fraction after a call: the state that follows the digits taken. A struct, so that a call can tell more later.
#[derive(Drop)]
pub struct Resumed<T> {
    pub state: DivisionState<T>,
}

// A refused call: the very state that it was given, and why.
#[derive(Drop)]
pub struct Refused<T> {
    pub state: DivisionState<T>,
    pub fault: DivisionFault,
}

// A division wherever it stands.
#[derive(Drop)]
pub enum Division<T> {
    // Digits of the whole part are still to come.
    Whole { state: IntegralState<T> },
    // The whole part has ended.
    Fraction { state: DivisionState<T> },
}
