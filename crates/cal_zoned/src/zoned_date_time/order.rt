//! The equality, the order and the hash of date-times in zones, all by instant.
ghost use Rattle.std.specs.Ordering.{int_cmp, int_eq, on, as_partial_cmp};
ghost use Rattle.std.specs.Cmp.{partial_order_from_own_ties};
ghost use Rattle.std.specs.Cmp.Rules.{comparing, hashing};
ghost use Rattle.std.proofs.Common.{rules};
ghost use Rattle.cal_zoned.specs.Zoned.{instant_in};
ghost use Rattle.cal_zoned.specs.Hash.{hash_input_of};

use crate::ZonedDateTime;
use std::cmp::Ordering;
use std::hash::{Hash, Hasher};

impl<'z> PartialEq for ZonedDateTime<'z> {
    ghost eq = { on instant_in int_eq };

    ghost laws = { Prim.search (comparing, rules) };

    fn eq(&self, other: &Self) -> bool {
        self.moment == other.moment
    }
}

impl<'z> Eq for ZonedDateTime<'z> {
    ghost laws = { Prim.search (comparing, rules) };
}

impl<'z> Ord for ZonedDateTime<'z> {
    ghost cmp = { on instant_in int_cmp };

    ghost total = { Prim.search (comparing, rules) };

    ghost matches_partial_cmp = { Prim.search (comparing, rules) };

    ghost matches_eq = { Prim.search (comparing, rules) };

    fn cmp(&self, other: &Self) -> Ordering {
        self.moment.cmp(&other.moment)
    }
}

impl<'z> PartialOrd for ZonedDateTime<'z> {
    ghost partial_cmp = { as_partial_cmp (on instant_in int_cmp) };

    ghost laws = { partial_order_from_own_ties (Prim.search (comparing, rules))
        (Prim.search (comparing, rules)) };

    fn partial_cmp(&self, other: &Self) -> Option<Ordering> {
        Some(self.cmp(other))
    }
}

impl<'z> Hash for ZonedDateTime<'z> {
    ghost hash_input = { hash_input_of };

    ghost respects_eq = { Prim.search (hashing, rules) };

    fn hash<H: Hasher>(&self, state: &mut H) {
        self.moment.hash(state);
    }
}
