//! The bound `Counted` at a type of another crate.

use cal_time::Counted;

/// A floor of a house, counted from the street.
#[derive(Clone, Copy, PartialEq, Eq, PartialOrd, Ord, Hash, Debug)]
pub struct Floor(pub i8);

impl Counted for Floor {
    ghost use Rattle.std.proofs.Common.{rules, refl};

    ghost number_of = { λ floor. floor.0 };

    ghost cmp_by_number = { λ x y. Prim.search rules };

    ghost eq_by_number = { λ x y. Prim.search rules };

    ghost hash_by_number = { λ x y e. Prim.search rules };

    fn number(self) -> i128 {
        self.0 as i128
    }
}
