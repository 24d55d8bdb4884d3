//! The number of times. Their order, equality and hash are derived.

use crate::Time;
use cal_units::Counted;

impl Counted for Time {
    ghost use Rattle.std.specs.Prelude.{pos};
    ghost use Rattle.std.specs.Hash as fed;
    ghost use Rattle.std.proofs.Common.{ap, arith};
    ghost use Rattle.std.proofs.lemmas.Int.{ints};
    ghost use Rattle.cal_units.specs.Order.{nat_cmp-pos, same-pos};

    ghost number_of = { pos };

    ghost cmp_by_number = { nat_cmp-pos };

    ghost eq_by_number = { λ x y. Prim.grind (arith, ints) };

    ghost hash_by_number = { λ x y e. ap fed.u64 (same-pos x y e) };

    /// Returns the nanoseconds since midnight, from 0 to 86399999999999. For 1:00 they are
    /// 3600000000000.
    fn number(self) -> i128 {
        i128::from(self.nanoseconds)
    }
}
