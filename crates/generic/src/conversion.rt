// From one integer type to another.
ghost use Rattle.std.specs.Prelude.{◌≤◌};
ghost use Rattle.generic.specs.Signed.{PlusExactly};

use crate::integer::GenericInteger;
use crate::sign::Sign;

// Plus and the same number in another type; None exactly when it passes that type's greatest.
pub fn read_generic_integer<T: GenericInteger, F: GenericInteger>(from: F) -> Option<(Sign, T)>
    ensures { PlusExactly T.number result (F.number from ≤ T.greatest) (F.number from) }
{
    Some((Sign::Plus, T::from_u64(from.to_u64())?))
}
