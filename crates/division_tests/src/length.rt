// How long a fraction is, from what the contracts of a division say alone.
ghost use Rattle.std.specs.Prelude.{◌≡◌, ◌<◌, ◌≤◌, MatchOption};
ghost use Rattle.division.specs.Expansion.{coming};

use division::counter::Counter;
use division::fraction::divide_rem;
use division::sink::DigitSink;

// How many digits the fraction r over d has, with at most `most` wanted; None exactly when r is not below d.
pub fn fraction_length(r: u16, d: u16, most: u16) -> Option<u16>
    ensures { MatchOption result (d ≤ r) (λ n. (r < d) × (n ≡ coming d r most)) }
{
    let mut count = Counter::new(most);
    divide_rem(r, d, &mut count).ok()?;
    Some(count.taken())
}
