//! Finding the day of a command.
ghost use Rattle.cal_time.specs.Month.{number};
ghost use Rattle.cal_time.specs.DateErrors.{julian_day_out_of_range};
ghost use Rattle.cal_time.specs.Weekday.{index};
ghost use Rattle.caltool.specs.Answers.{day_of_calendar_date, day_of_iso_week_date, day_of_julian_day, day_of_ordinal_date, calendar_date_refusal, iso_week_date_refusal, ordinal_date_refusal};
ghost use Rattle.caltool.specs.FindsDate.{FindsDate};

use cal_time::error::ComponentRange;
use cal_time::{Date, Month, Weekday};

/// Returns the day with a Julian day, or the error `julian_day`.
pub fn find_julian_day(julian_day: i32) -> Result<Date, ComponentRange>
    ensures { FindsDate (day_of_julian_day julian_day) julian_day_out_of_range result }
{
    Date::from_julian_day(julian_day)
}

/// Returns the day with a year and an ordinal, or the error `year` or `ordinal`.
pub fn find_ordinal_date(year: i32, ordinal: u16) -> Result<Date, ComponentRange>
    ensures { FindsDate (day_of_ordinal_date year ordinal) (ordinal_date_refusal year) result }
{
    Date::from_ordinal_date(year, ordinal)
}

/// Returns the day of a calendar date, or the first error that applies: `month`, `year` or `day`.
pub fn find_calendar_date(year: i32, month: u8, day: u8) -> Result<Date, ComponentRange>
    ensures { FindsDate (day_of_calendar_date year month day) (calendar_date_refusal year month) result }
{
    find_date_of_month(year, Month::try_from(month)?, day)
}

fn find_date_of_month(year: i32, month: Month, day: u8) -> Result<Date, ComponentRange>
    ensures { FindsDate (day_of_calendar_date year (number month) day)
        (calendar_date_refusal year (number month)) result }
{
    Date::from_calendar_date(year, month, day)
}

/// Returns the day of a week date, or the first error that applies: `year`, `week` or `weekday`.
pub fn find_iso_week_date(year: i32, week: u8, weekday: Weekday) -> Result<Date, ComponentRange>
    ensures { FindsDate (day_of_iso_week_date year week (index weekday)) (iso_week_date_refusal year week) result }
{
    Date::from_iso_week_date(year, week, weekday)
}
