// A sink that writes the groups of a package into a buffer of the caller's, from its front on.
ghost use Rattle.std.specs.Prelude.{◌≡◌, ℕ, ◌+◌, ◌*◌, ◌^◌, ◌<◌, ◌≤◌, true, length, nat_lt};
ghost use Rattle.numeric.specs.Package.{fours};
ghost use Rattle.numeric_write.specs.States.{going, skips, fills};

use crate::group_state::GroupState;

pub(crate) mod filling;

#[derive(Drop)]
pub struct GroupSink<'a> {
    // The caller's own.
    buffer: &'a mut [u8],
    // How many groups stand in the buffer.
    count: usize,
    // The number that the digits of the next group form so far, and how many of its four places are taken.
    group: u16,
    places: u8,
    taken: u16,
    left: u16,
    state: GroupState,
    ghost below: { group < 10 ^ places },
    ghost open: { places < 4 },
    ghost room: { 2 * (count + fours (places + left)) ≤ length buffer.now },
    ghost bound: { taken + left ≤ 65535 },
    ghost going: { going state ≡ nat_lt 0 left },
    ghost empty: { skips state ≡ true → count ≡ 0 },
    ghost zeros: { skips state ≡ true → group ≡ 0 },
    ghost begun: { fills state ≡ true → count ≡ 0 → 0 < group },
}
