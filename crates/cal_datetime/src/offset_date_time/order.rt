//! The equality, the order and the hash of date-times at an offset, all by instant.
ghost use Rattle.std.specs.Ordering.{int_cmp, int_eq, on, as_partial_cmp};
ghost use Rattle.std.specs.Cmp.{partial_order_from_own_ties};
ghost use Rattle.std.specs.Cmp.Rules.{comparing, hashing};
ghost use Rattle.std.proofs.Common.{rules};
ghost use Rattle.cal_datetime.specs.OffsetDateTime.{instant, hash_input_of};

use crate::OffsetDateTime;
use cal_time::Counted;
use std::cmp::Ordering;
use std::hash::{Hash, Hasher};

impl PartialEq for OffsetDateTime {
    ghost eq = { on instant int_eq };

    ghost laws = { Prim.search (comparing, rules) };

    fn eq(&self, other: &Self) -> bool {
        self.instant() == other.instant()
    }
}

impl Eq for OffsetDateTime {
    ghost laws = { Prim.search (comparing, rules) };
}

impl Ord for OffsetDateTime {
    ghost cmp = { on instant int_cmp };

    ghost total = { Prim.search (comparing, rules) };

    ghost matches_partial_cmp = { Prim.search (comparing, rules) };

    ghost matches_eq = { Prim.search (comparing, rules) };

    fn cmp(&self, other: &Self) -> Ordering {
        self.instant().cmp(&other.instant())
    }
}

impl PartialOrd for OffsetDateTime {
    ghost partial_cmp = { as_partial_cmp (on instant int_cmp) };

    ghost laws = { partial_order_from_own_ties (Prim.search (comparing, rules))
        (Prim.search (comparing, rules)) };

    fn partial_cmp(&self, other: &Self) -> Option<Ordering> {
        Some(self.cmp(other))
    }
}

impl Hash for OffsetDateTime {
    ghost hash_input = { hash_input_of };

    ghost respects_eq = { Prim.search (hashing, rules) };

    fn hash<H: Hasher>(&self, state: &mut H) {
        self.instant().hash(state);
    }
}

impl Counted for OffsetDateTime {
    ghost use Rattle.std.specs.Prelude.{refl};
    ghost use Rattle.std.proofs.Common.{ap};
    ghost use Rattle.std.specs.Hash as fed;

    ghost number_of = { instant };

    ghost cmp_by_number = { λ x y. refl };

    ghost eq_by_number = { λ x y. Prim.search rules };

    ghost hash_by_number = { λ x y e. ap fed.i128 e };

    /// Returns the nanoseconds from the first date-time of the range, at UTC, to the instant. For
    /// 1970-01-01 1:00 +01:00:00 it is 31619087596800000000000.
    fn number(self) -> i128 {
        self.instant()
    }
}
