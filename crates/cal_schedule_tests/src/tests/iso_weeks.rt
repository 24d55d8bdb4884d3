//! Weeks of a rule that begin on Monday are ISO weeks.
ghost use Rattle.std.specs.Prelude.{◌≡◌};
ghost use Rattle.cal_time.specs.IsoWeekDate.{iso_week_at};
ghost use Rattle.cal_schedule_tests.specs.IsoWeeks.{AreIsoWeeks};

use cal_time::Date;

/// Returns the ISO week of a date, which is its week in a rule with weeks from Monday.
fn iso_week(date: Date) -> u8
    ensures value { result ≡ iso_week_at date }
    ensures weeks { AreIsoWeeks date }
{
    date.iso_week()
}
