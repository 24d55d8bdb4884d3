//! The numbers of a duration in text.
ghost use Rattle.std.specs.Prelude.{◌≡◌, ◌∷◌, []};

/// The calendar parts of a duration in text. They need not be in range.
#[derive(Clone, Copy, Debug)]
pub struct DateNumbers {
    /// The years.
    pub years: u64,
    /// The months past the years.
    pub months: u64,
    /// The weeks.
    pub weeks: u64,
    /// The days past the weeks.
    pub days: u64,
}

impl DateNumbers {
    /// No part.
    pub(crate) const NONE: Self = Self {
        years: 0,
        months: 0,
        weeks: 0,
        days: 0,
    };

    /// Creates the parts from the years, the months and the weeks, and the days.
    pub(crate) fn new(numbers: [u64; 3], days: u64) -> Self
        ensures parts { numbers ≡ result.years ∷ result.months ∷ result.weeks ∷ [] }
        ensures days { result.days ≡ days }
    {
        let [years, months, weeks] = numbers;
        Self {
            years,
            months,
            weeks,
            days,
        }
    }
}

/// The exact parts of a duration in text. They need not be in range, except the nanoseconds past
/// the seconds.
#[derive(Clone, Copy, Debug)]
pub struct TimeNumbers {
    /// The hours.
    pub hours: u64,
    /// The minutes past the hours.
    pub minutes: u64,
    /// The seconds past the minutes.
    pub seconds: u64,
    /// The nanoseconds past the seconds.
    pub nanoseconds: u32,
}

impl TimeNumbers {
    /// Creates the parts from the hours and the minutes, the seconds and the nanoseconds.
    pub(crate) fn new(numbers: [u64; 2], seconds: u64, nanoseconds: u32) -> Self
        ensures parts { numbers ≡ result.hours ∷ result.minutes ∷ [] }
        ensures seconds { result.seconds ≡ seconds }
        ensures nanoseconds { result.nanoseconds ≡ nanoseconds }
    {
        let [hours, minutes] = numbers;
        Self {
            hours,
            minutes,
            seconds,
            nanoseconds,
        }
    }
}

/// All parts of a duration in text, and its sign.
#[derive(Clone, Copy, Debug)]
pub struct Numbers {
    /// `true` for a minus sign.
    pub is_negative: bool,
    /// The calendar parts.
    pub date: DateNumbers,
    /// The exact parts.
    pub time: TimeNumbers,
}
