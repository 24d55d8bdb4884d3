//! The order, the hash and the number of dates.
ghost use Rattle.std.specs.Prelude.{◌==◌};
ghost use Rattle.std.specs.Ordering.{nat_cmp, as_partial_cmp};
ghost use Rattle.std.specs.Cmp.{partial_order_from_own_ties};
ghost use Rattle.std.specs.Cmp.Rules.{comparing, hashing};
ghost use Rattle.std.proofs.Common.{rules};

use crate::date::Date;
use cal_units::Counted;
use std::cmp::Ordering;
use std::hash::{Hash, Hasher};

impl PartialEq for Date {
    ghost eq = { ◌==◌ };

    ghost laws = { Prim.search (comparing, rules) };

    #[tactic(auto, using(crate::proofs::PackedOrder::order_of_packed))]
    fn eq(&self, other: &Date) -> bool {
        other.packed == self.packed
    }
}

impl Eq for Date {
    ghost laws = { Prim.search (comparing, rules) };
}

impl Ord for Date {
    ghost cmp = { nat_cmp };

    ghost total = { Prim.search (comparing, rules) };

    ghost matches_partial_cmp = { Prim.search (comparing, rules) };

    ghost matches_eq = { Prim.search (comparing, rules) };

    #[tactic(auto, using(crate::proofs::PackedOrder::order_of_packed))]
    fn cmp(&self, other: &Date) -> Ordering {
        self.packed.cmp(&other.packed)
    }
}

impl PartialOrd for Date {
    ghost partial_cmp = { as_partial_cmp nat_cmp };

    ghost laws = { partial_order_from_own_ties (Prim.search (comparing, rules))
        (Prim.search (comparing, rules)) };

    fn partial_cmp(&self, other: &Date) -> Option<Ordering> {
        Some(self.cmp(other))
    }
}

impl Hash for Date {
    ghost use Rattle.std.specs.Hash as fed;
    ghost use Rattle.cal_date.specs.PackedDate.{hash_word};

    ghost hash_input = { λ n. fed.i32 (hash_word n) };

    ghost respects_eq = { Prim.search (hashing, rules) };

    #[tactic(auto, using(crate::proofs::Packed::numbers_of_packed), unfolding(crate::specs::PackedDate::hash_word))]
    fn hash<H: Hasher>(&self, state: &mut H) {
        self.packed.hash(state);
    }
}

impl Counted for Date {
    ghost use Rattle.std.proofs.Common.{arith};
    ghost use Rattle.std.proofs.lemmas.Bool.Decides.{nat_tests};
    ghost use Rattle.std.proofs.lemmas.Int.{ints};
    ghost use Rattle.cal_date.specs.Date.{julian_day_at};

    ghost number_of = { julian_day_at };

    ghost cmp_by_number = { λ x y. Prim.grind (arith, ints, nat_tests) };

    ghost eq_by_number = { λ x y. Prim.grind (arith, ints, nat_tests) };

    ghost hash_by_number = { λ x y e. Prim.grind (arith, ints) };

    /// Returns the Julian day, from -363521074 to 366963559. For 2000-01-01 it is 2451545.
    fn number(self) -> i128 {
        self.to_julian_day() as i128
    }
}
