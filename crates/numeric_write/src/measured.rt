// A fraction that was opened and measured.
ghost use Rattle.std.specs.Prelude.{◌≡◌, ◌%◌, ◌≤◌};
ghost use Rattle.division.specs.Expansion.{coming};
ghost use Rattle.division.specs.Sound.{SoundState};
ghost use Rattle.division.specs.Whole.{Width};
ghost use Rattle.std.proofs.Props.{props};
ghost use Rattle.numeric_write.specs.Measure.{SizedBy};
ghost use Rattle.numeric_write.specs.Props.{Shaped-prop};

use crate::extent::Extent;
use crate::measure::measure;
use crate::precision::Precision;
use division::state::IntegralState;
use division::whole::open;
use fraction::ratio::Ratio;
use generic::integer::GenericInteger;

// No digit has been taken of it yet.
#[derive(Drop)]
pub(crate) struct Measured<T: GenericInteger> {
    pub(crate) state: IntegralState<T>,
    pub(crate) extent: Extent,
    ghost sound: { SoundState T.CountingNumber state },
    ghost opened: { Width (T.number state.rest) (T.number state.divisor) state.place },
    ghost sized: { SizedBy (T.number state.rest) (T.number state.divisor) state.place extent } by { Prim.hlevel (props, Shaped-prop) },
    // As many decimals as the scale says do come.
    ghost reached: { coming (T.number state.divisor) (T.number state.rest % T.number state.divisor) extent.scale ≡ extent.scale },
    ghost bounded: { extent.scale ≤ 16383 },
}

impl<T: GenericInteger> Measured<T> {
    ghost use Rattle.std.specs.Prelude.{◌<◌};
    ghost use Rattle.numeric_write.specs.Plans.{Measures};

    // Of a fraction that is not 0.
    pub(crate) fn new(ratio: Ratio<T>, precision: Precision) -> Measured<T>
        requires some { 0 < T.number ratio.numer }
        requires denom { 0 < T.number ratio.denom }
        ensures { Measures T.CountingNumber ratio precision.digits result }
    {
        let state = open(ratio.numer(), ratio.denom()).unwrap();
        let extent = measure(ratio, state.place(), precision);
        Measured { state, extent }
    }
}
