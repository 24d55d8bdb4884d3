//! The names of one language.
ghost use Rattle.std.specs.Prelude.{◌≡◌};
ghost use Rattle.cal_units.specs.Month.{index as month_index};
ghost use Rattle.cal_units.specs.Weekday.{index as weekday_index};
ghost use Rattle.cal_names.specs.Apart.{text_at};

use cal_units::{Month, Weekday};

/// The names of one language. Each table is in the order of the calendar: months from January on,
/// weekdays from Monday on, and the name before noon first.
///
/// Some languages have two forms of months. `months` has the form beside a day, such as `stycznia`
/// in `1 stycznia`, and `months_alone` has the form without a day, such as `styczeń`. Formats show
/// them by `%B` and `%OB`.
#[derive(Clone, Copy, Debug)]
pub struct Names<'n> {
    /// The months beside a day, such as `stycznia`.
    pub months: [&'n str; 12],
    /// The months without a day, such as `styczeń`.
    pub months_alone: [&'n str; 12],
    /// The short months, such as `sty`.
    pub short_months: [&'n str; 12],
    /// The weekdays, such as `poniedziałek`.
    pub weekdays: [&'n str; 7],
    /// The short weekdays, such as `pon`.
    pub short_weekdays: [&'n str; 7],
    /// The halves of the day, such as `AM` and `PM`. Both are empty in many languages.
    pub periods: [&'n str; 2],
    /// The halves of the day in lower case, such as `am` and `pm`.
    pub lower_periods: [&'n str; 2],
}

impl<'n> Names<'n> {
    /// Returns the name of a month beside a day. In Polish, January is `stycznia`.
    pub fn month(&self, month: Month) -> &'n str
        ensures { result.now ≡ text_at self.now.months (month_index month) }
    {
        self.months[index_of(month)]
    }

    /// Returns the name of a month without a day. In Polish, January is `styczeń`.
    pub fn month_alone(&self, month: Month) -> &'n str
        ensures { result.now ≡ text_at self.now.months_alone (month_index month) }
    {
        self.months_alone[index_of(month)]
    }

    /// Returns the short name of a month. In Polish, January is `sty`.
    pub fn short_month(&self, month: Month) -> &'n str
        ensures { result.now ≡ text_at self.now.short_months (month_index month) }
    {
        self.short_months[index_of(month)]
    }

    /// Returns the name of a weekday. In Polish, Monday is `poniedziałek`.
    pub fn weekday(&self, weekday: Weekday) -> &'n str
        ensures { result.now ≡ text_at self.now.weekdays (weekday_index weekday) }
    {
        self.weekdays[weekday.number_days_from_monday() as usize]
    }

    /// Returns the short name of a weekday. In Polish, Monday is `pon`.
    pub fn short_weekday(&self, weekday: Weekday) -> &'n str
        ensures { result.now ≡ text_at self.now.short_weekdays (weekday_index weekday) }
    {
        self.short_weekdays[weekday.number_days_from_monday() as usize]
    }
}

/// Returns the index of a month, from 0 for January.
fn index_of(month: Month) -> usize
    ensures { result ≡ month_index month }
{
    month as usize - 1
}
