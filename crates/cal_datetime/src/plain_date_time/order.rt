//! The order, the hash and the number of date-times.
ghost use Rattle.std.specs.Ordering.{int_cmp, int_eq, as_partial_cmp};
ghost use Rattle.std.specs.Cmp.{partial_order_from_own_ties};
ghost use Rattle.std.specs.Cmp.Rules.{comparing, hashing};
ghost use Rattle.std.proofs.Common.{rules};

use crate::PlainDateTime;
use cal_time::Counted;
use cal_time::limits::MIN_JULIAN_DAY;
use std::cmp::Ordering;
use std::hash::{Hash, Hasher};

const NANOSECONDS_PER_DAY: i128 = 86_400_000_000_000;

impl PartialEq for PlainDateTime {
    ghost eq = { int_eq };

    ghost laws = { Prim.search (comparing, rules) };

    #[tactic(auto, using(crate::proofs::DateTimes::order_of_parts))]
    fn eq(&self, other: &Self) -> bool {
        self.date == other.date && self.time == other.time
    }
}

impl Eq for PlainDateTime {
    ghost laws = { Prim.search (comparing, rules) };
}

impl Ord for PlainDateTime {
    ghost cmp = { int_cmp };

    ghost total = { Prim.search (comparing, rules) };

    ghost matches_partial_cmp = { Prim.search (comparing, rules) };

    ghost matches_eq = { Prim.search (comparing, rules) };

    #[tactic(auto, using(crate::proofs::DateTimes::order_of_parts))]
    fn cmp(&self, other: &Self) -> Ordering {
        self.date.cmp(&other.date).then(self.time.cmp(&other.time))
    }
}

impl PartialOrd for PlainDateTime {
    ghost partial_cmp = { as_partial_cmp int_cmp };

    ghost laws = { partial_order_from_own_ties (Prim.search (comparing, rules))
        (Prim.search (comparing, rules)) };

    fn partial_cmp(&self, other: &Self) -> Option<Ordering> {
        Some(self.cmp(other))
    }
}

impl Hash for PlainDateTime {
    ghost use Rattle.std.specs.Hash as fed;

    ghost hash_input = { fed.i128 };

    ghost respects_eq = { Prim.search (hashing, rules) };

    fn hash<H: Hasher>(&self, state: &mut H) {
        self.number().hash(state);
    }
}

impl Counted for PlainDateTime {
    ghost use Rattle.std.specs.Prelude.{refl};
    ghost use Rattle.std.proofs.Common.{rules, ap};
    ghost use Rattle.std.specs.Hash as fed;

    ghost number_of = { λ m. m };

    ghost cmp_by_number = { λ x y. refl };

    ghost eq_by_number = { λ x y. Prim.search rules };

    ghost hash_by_number = { λ x y e. ap fed.i128 e };

    /// Returns the nanoseconds since the first date-time of the range. For 1970-01-01 0:00 it is
    /// 31619087596800000000000.
    fn number(self) -> i128 {
        let days = i128::from(self.date.to_julian_day() - MIN_JULIAN_DAY);
        days * NANOSECONDS_PER_DAY + self.time.number()
    }
}
