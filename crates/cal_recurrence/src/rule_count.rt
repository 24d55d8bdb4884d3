//! The number of days or readings of a recurrence.
ghost use Rattle.std.specs.Prelude.{◌≡◌, ◌≤◌, ◌==◌, SomeIff};
ghost use Rattle.std.specs.Cmp.Rules.{comparing};
ghost use Rattle.std.proofs.Common.{rules};

use std::marker::Model;

/// A number of days or readings (`COUNT`), from 1 to 4294967295. Contracts see the number.
#[derive(Clone, Copy, Debug)]
pub struct RuleCount {
    number: u32,
}

impl Model for RuleCount {
    ghost use Rattle.std.specs.Prelude.{ℕ, ◌≤◌};

    ghost Value = { ℕ };

    ghost view = { λ count. count.number };

    ghost invariant = { λ count. 1 ≤ count.number };

    ghost inverse = { λ number. record { number = number } };
}

impl RuleCount {
    /// Creates a count, or returns `None` for 0. `RuleCount::new(12)` is the count of `COUNT=12`.
    pub fn new(number: u32) -> Option<Self>
        ensures { SomeIff result (1 ≤ number) number }
    {
        if number == 0 {
            return None;
        }
        Some(RuleCount::from_positive(number))
    }

    /// Creates a count from a number that isn't 0.
    pub(crate) fn from_positive(number: u32) -> Self
        requires { 1 ≤ number }
        ensures { result ≡ number }
    {
        RuleCount { number }
    }

    /// Returns the number, from 1. For `COUNT=12` it is 12.
    pub fn get(self) -> u32
        ensures value { result ≡ self }
        ensures least { 1 ≤ result }
    {
        self.number
    }
}

impl PartialEq for RuleCount {
    ghost eq = { ◌==◌ };

    ghost laws = { Prim.search (comparing, rules) };

    fn eq(&self, other: &RuleCount) -> bool {
        self.number == other.number
    }
}

impl Eq for RuleCount {
    ghost laws = { Prim.search (comparing, rules) };
}
