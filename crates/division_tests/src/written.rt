// The text of a fraction, from what the contracts of a division say alone.
ghost use Rattle.std.specs.Prelude.{◌≡◌, ℕ, ◌<◌, ◌≤◌, min, length, take, MatchOption, slice_index};
ghost use Rattle.division.specs.Digits.{ascii_number, fed, shifted};
ghost use Rattle.division.specs.Expansion.{coming, digits};

use division::fraction::divide_rem;
use division::sink::DigitSink;
use division::text::TextSink;

// Writes the digits of r over d into the front of the buffer, as many as there are and as fit, and nothing else.
pub fn fraction_text(r: u16, d: u16, buffer: &mut [u8]) -> Option<u16>
    ensures count { MatchOption result (d ≤ r) (λ k. (r < d) × (k ≡ coming d r (min (length buffer.old) 65535))) }
    ensures number { MatchOption result (buffer.new ≡ buffer.old) (λ k. ascii_number (take k buffer.new) ≡ fed shifted 0 (digits d r 0 k)) }
    ensures behind { MatchOption result (buffer.new ≡ buffer.old) (λ k. (i : ℕ) → k ≤ i → slice_index buffer.new i ≡ slice_index buffer.old i) }
{
    let mut sink = TextSink::new(buffer);
    divide_rem(r, d, &mut sink).ok()?;
    Some(sink.taken())
}
