// How far a division has come in its whole part.
ghost use Rattle.std.specs.Prelude.{◌≡◌};

// Digits of the whole part are still to come.
#[derive(Drop)]
pub struct IntegralState<T> {
    pub(crate) rest: T,
    pub(crate) divisor: T,
    // What the next digit counts: ten to the place less one, times the divisor.
    pub(crate) unit: T,
    // How many digits of the whole part are still to come.
    pub(crate) place: u8,
}

impl<T: Copy> IntegralState<T> {
    pub fn rest(&self) -> T
        ensures { result ≡ self.now.rest }
    {
        self.rest
    }

    pub fn place(&self) -> u8
        ensures { result ≡ self.now.place }
    {
        self.place
    }
}
