// How far a group sink has come.
#[derive(Clone, Copy)]
pub enum GroupState {
    // Only zeros have come: their groups are left out.
    Skipping,
    // Another digit has come.
    Filling,
    // All digits have come: what is left says so too, but one match of state and digit answers every offer.
    Spent,
}
