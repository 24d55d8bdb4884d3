//! The dates with a weekday after a date, and before it.
ghost use Rattle.std.specs.Prelude.{◌≡◌, ◌+◌, ◌-◌, ◌*◌, ◌<◌, ◌≤◌, Some, IsSome, IfSome};
ghost use Rattle.cal_units.specs.Weekday.{index};
ghost use Rattle.cal_date.specs.Date.{weekday_at, IsDate};
ghost use Rattle.cal_date.specs.Occurrences.{next_occurrences, prev_occurrences, kth};

use crate::date::Date;
use crate::day_number::{nth_next_occurrence, nth_prev_occurrence};
use cal_units::Weekday;

impl Date {
    /// Returns the first date after this one with the weekday, or `None` if it is after
    /// [`Self::MAX`].
    ///
    /// The Monday after 2023-06-28 is 2023-07-03. The Monday after a Monday is seven days later.
    pub fn checked_next_occurrence(self, weekday: Weekday) -> Option<Self>
        ensures value { result ≡ kth 1 (next_occurrences (index weekday) self) }
        ensures weekday { IfSome result (λ n. weekday_at n ≡ index weekday) }
        ensures range { IfSome result (λ n. (self < n) × (n ≤ self + 7) × IsDate n) }
        ensures in_range { IsDate self }
    {
        self.checked_nth_next_occurrence(weekday, 1)
    }

    /// Returns the last date before this one with the weekday, or `None` if it is before
    /// [`Self::MIN`]. The Monday before 2023-06-19, a Monday, is 2023-06-12.
    pub fn checked_prev_occurrence(self, weekday: Weekday) -> Option<Self>
        ensures value { result ≡ kth 1 (prev_occurrences (index weekday) self) }
        ensures weekday { IfSome result (λ n. weekday_at n ≡ index weekday) }
        ensures range { IfSome result (λ n. (n < self) × (self ≤ n + 7)) }
        ensures in_range { IsDate self }
    {
        self.checked_nth_prev_occurrence(weekday, 1)
    }

    /// Returns the `n`-th date after this one with the weekday, counted from 1. Returns `None` if
    /// it is after [`Self::MAX`] or `n` is 0. The fifth Monday after 2023-06-25 is 2023-07-24.
    pub fn checked_nth_next_occurrence(self, weekday: Weekday, n: u8) -> Option<Self>
        ensures value { result ≡ kth n (next_occurrences (index weekday) self) }

        // It is in the n-th week after the date.
        ensures weekday { IfSome result (λ later. weekday_at later ≡ index weekday) }
        ensures range { IfSome result
            (λ later. (self + 7 * (n - 1) < later) × (later ≤ self + 7 * n) × IsDate later) }
        ensures in_range { IsDate self }
    {
        let weekday = u32::from(weekday.number_days_from_monday());
        match nth_next_occurrence(self.day_number(), weekday, n) {
            Some(number) => Some(Self::from_number(number)),
            None => None,
        }
    }

    /// Returns the `n`-th date before this one with the weekday, counted from 1. Returns `None` if
    /// it is before [`Self::MIN`] or `n` is 0. The third Monday before 2023-06-27 is 2023-06-12.
    pub fn checked_nth_prev_occurrence(self, weekday: Weekday, n: u8) -> Option<Self>
        ensures value { result ≡ kth n (prev_occurrences (index weekday) self) }

        // It is in the n-th week before the date.
        ensures weekday { IfSome result (λ earlier. weekday_at earlier ≡ index weekday) }
        ensures range { IfSome result
            (λ earlier. (earlier + 7 * (n - 1) < self) × (self ≤ earlier + 7 * n)) }
        ensures in_range { IsDate self }
    {
        let weekday = u32::from(weekday.number_days_from_monday());
        match nth_prev_occurrence(self.day_number(), weekday, n) {
            Some(number) => Some(Self::from_number(number)),
            None => None,
        }
    }

    /// Returns the first date after this one with the weekday, which must be in the range. The
    /// Monday after 2023-06-28 is 2023-07-03.
    pub fn next_occurrence(self, weekday: Weekday) -> Self
        requires { IsSome (kth 1 (next_occurrences (index weekday) self)) }
        ensures value { kth 1 (next_occurrences (index weekday) self) ≡ Some result }
        ensures weekday { weekday_at result ≡ index weekday }
        ensures range { (self < result) × (result ≤ self + 7) }
        ensures in_range { IsDate self }
    {
        self.checked_next_occurrence(weekday).unwrap()
    }

    /// Returns the last date before this one with the weekday, which must be in the range. The
    /// Monday before 2023-06-19 is 2023-06-12.
    pub fn prev_occurrence(self, weekday: Weekday) -> Self
        requires { IsSome (kth 1 (prev_occurrences (index weekday) self)) }
        ensures value { kth 1 (prev_occurrences (index weekday) self) ≡ Some result }
        ensures weekday { weekday_at result ≡ index weekday }
        ensures range { (result < self) × (self ≤ result + 7) }
        ensures in_range { IsDate self }
    {
        self.checked_prev_occurrence(weekday).unwrap()
    }

    /// Returns the `n`-th date after this one with the weekday, counted from 1. `n` must not be 0,
    /// and the date must be in the range. The fifth Monday after 2023-06-25 is 2023-07-24.
    pub fn nth_next_occurrence(self, weekday: Weekday, n: u8) -> Self
        requires { IsSome (kth n (next_occurrences (index weekday) self)) }
        ensures value { kth n (next_occurrences (index weekday) self) ≡ Some result }
        ensures weekday { weekday_at result ≡ index weekday }
        ensures range { (self + 7 * (n - 1) < result) × (result ≤ self + 7 * n) }
        ensures in_range { IsDate self }
    {
        self.checked_nth_next_occurrence(weekday, n).unwrap()
    }

    /// Returns the `n`-th date before this one with the weekday, counted from 1. `n` must not be 0,
    /// and the date must be in the range. The third Monday before 2023-06-27 is 2023-06-12.
    pub fn nth_prev_occurrence(self, weekday: Weekday, n: u8) -> Self
        requires { IsSome (kth n (prev_occurrences (index weekday) self)) }
        ensures value { kth n (prev_occurrences (index weekday) self) ≡ Some result }
        ensures weekday { weekday_at result ≡ index weekday }
        ensures range { (result + 7 * (n - 1) < self) × (self ≤ result + 7 * n) }
        ensures in_range { IsDate self }
    {
        self.checked_nth_prev_occurrence(weekday, n).unwrap()
    }
}
