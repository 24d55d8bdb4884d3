//! The order, the hash and the number of durations.

ghost use Rattle.std.specs.Prelude.{pos};
ghost use Rattle.std.specs.Ordering.{int_cmp, int_eq, as_partial_cmp};
ghost use Rattle.std.specs.Cmp.{partial_order_from_own_ties};
ghost use Rattle.std.specs.Cmp.Rules.{comparing, hashing};
ghost use Rattle.std.proofs.Common.{rules};

use crate::SignedDuration;
use cal_units::Counted;
use std::cmp::Ordering;
use std::hash::{Hash, Hasher};

impl PartialEq for SignedDuration {
    ghost eq = { int_eq };

    ghost laws = { Prim.search (comparing, rules) };

    fn eq(&self, other: &Self) -> bool {
        self.seconds == other.seconds && self.nanoseconds == other.nanoseconds
    }
}

impl Eq for SignedDuration {
    ghost laws = { Prim.search (comparing, rules) };
}

impl Ord for SignedDuration {
    ghost cmp = { int_cmp };

    ghost total = { Prim.search (comparing, rules) };

    ghost matches_partial_cmp = { Prim.search (comparing, rules) };

    ghost matches_eq = { Prim.search (comparing, rules) };

    fn cmp(&self, other: &Self) -> Ordering {
        self.seconds
            .cmp(&other.seconds)
            .then(self.nanoseconds.cmp(&other.nanoseconds))
    }
}

impl PartialOrd for SignedDuration {
    ghost partial_cmp = { as_partial_cmp int_cmp };

    ghost laws = { partial_order_from_own_ties (Prim.search (comparing, rules))
        (Prim.search (comparing, rules)) };

    fn partial_cmp(&self, other: &Self) -> Option<Ordering> {
        Some(self.cmp(other))
    }
}

impl Hash for SignedDuration {
    ghost use Rattle.cal_span.specs.SignedDuration.{hash_input_of};

    ghost hash_input = { hash_input_of };

    ghost respects_eq = { Prim.search (hashing, rules) };

    fn hash<H: Hasher>(&self, state: &mut H) {
        self.seconds.hash(state);
        self.nanoseconds.hash(state);
    }
}

impl Counted for SignedDuration {
    ghost use Rattle.std.specs.Prelude.{refl};
    ghost use Rattle.std.proofs.Common.{rules, ap};
    ghost use Rattle.cal_span.specs.SignedDuration.{hash_input_of};

    ghost number_of = { λ duration. duration };

    ghost cmp_by_number = { λ x y. refl };

    ghost eq_by_number = { λ x y. Prim.search rules };

    ghost hash_by_number = { λ x y e. ap hash_input_of e };

    /// Returns the number of nanoseconds. For 1 s it is 1000000000.
    fn number(self) -> i128 {
        self.whole_nanoseconds()
    }
}
