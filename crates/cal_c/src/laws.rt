//! Laws: the cases of parsing are complete, so the clauses of the parsers allow only one result.
ghost use Rattle.std.specs.Prelude.{◌≡◌, ◌⊎◌, ℕ, ℤ};
ghost use Rattle.cal_time.specs.Date.{IsDate};
ghost use Rattle.cal_time.specs.declared.error.ComponentRange.{ComponentRange};
ghost use Rattle.cal_duration.specs.Form.{HasDurationForm, HasPeriodForm};
ghost use Rattle.cal_duration.specs.Parsing as durations;
ghost use Rattle.cal_duration.specs.Values.{IsDurationError, IsDurationText, IsPeriodError, IsPeriodText};
ghost use Rattle.cal_duration.specs.declared.error.DurationComponent.{DurationComponent};
ghost use Rattle.cal_schedule.specs.Period.{Parts};
ghost use Rattle.cal_datetime.specs.OffsetDateTime.{LocalAndOffset};
ghost use Rattle.cal_text.specs.DateForms.{IsDateText};
ghost use Rattle.cal_text.specs.JulianForm.{julian_text, IsJulianForm, IsJulianDayError};
ghost use Rattle.cal_text.specs.OffsetDateTimeForm.{HasOffsetDateTimeForm, IsOffsetDateTimeError, IsOffsetDateTimeText};
ghost use Rattle.cal_text.specs.OffsetForm.{HasOffsetForm, IsOffsetError, IsOffsetText};
ghost use Rattle.cal_text.specs.PlainForm.{HasPlainForm, IsPlainError, IsPlainText};
ghost use Rattle.cal_text.specs.Position.{HasSome};
ghost use Rattle.cal_text.specs.Parsing.{HasError};
ghost use Rattle.cal_text.specs.Rfc3339Form.{IsMomentText};
ghost use Rattle.cal_text.specs.TimeForm.{HasTimeForm, IsTimeError, IsTimeText};
ghost use Rattle.cal_text.specs.UnixText.{HasUnixForm, IsUnixText, IsUnixTimeError};
ghost use Rattle.cal_c.specs.Texts.{HasDateSyntax, HasMomentSyntax, HasDateError, HasMomentError};

use cal_duration::{duration, period};
use cal_text::{date, julian_day, offset, offset_date_time, plain, rfc3339, time, unix};

/// States that a string is a date, has no form of a date, or has a component out of range.
pub fn date_cases(text: &[u8])
    ensures { ((n : ℕ) × IsDate n × IsDateText text.now n) ⊎ (¬ HasDateSyntax text.now)
        ⊎ ((why : ComponentRange) × HasDateError text.now why) }
{
    let _ = date::parse(text);
}

/// States that a string is a Julian day of a date, has no such form, or is out of range.
pub fn julian_day_cases(text: &[u8])
    ensures { ((n : ℕ) × IsDate n × (text.now ≡ julian_text n)) ⊎ (¬ HasSome IsJulianForm text.now)
        ⊎ ((why : ComponentRange) × HasError IsJulianForm IsJulianDayError text.now why) }
{
    let _ = julian_day::parse(text);
}

/// States that a string is a moment, has no such form, or has a component out of range.
pub fn moment_cases(text: &[u8])
    ensures { ((m : LocalAndOffset) × IsMomentText text.now m) ⊎ (¬ HasMomentSyntax text.now)
        ⊎ ((why : ComponentRange) × HasMomentError text.now why) }
{
    let _ = rfc3339::parse(text);
}

/// States that a string is a Unix time of a moment, has no such form, or is out of range.
pub fn unix_cases(text: &[u8])
    ensures { ((m : LocalAndOffset) × IsUnixText text.now m) ⊎ (¬ HasSome HasUnixForm text.now)
        ⊎ ((why : ComponentRange) × HasError HasUnixForm IsUnixTimeError text.now why) }
{
    let _ = unix::parse(text);
}

/// States that a string is a time of day, has no such form, or has a component out of range.
pub fn time_cases(text: &[u8])
    ensures { ((t : ℕ) × IsTimeText text.now t) ⊎ (¬ HasSome HasTimeForm text.now)
        ⊎ ((why : ComponentRange) × HasError HasTimeForm IsTimeError text.now why) }
{
    let _ = time::parse(text);
}

/// States that a string is an offset, has no such form, or has a component out of range.
pub fn offset_cases(text: &[u8])
    ensures { ((o : ℤ) × IsOffsetText text.now o) ⊎ (¬ HasSome HasOffsetForm text.now)
        ⊎ ((why : ComponentRange) × HasError HasOffsetForm IsOffsetError text.now why) }
{
    let _ = offset::parse(text);
}

/// States that a string is a date-time, has no such form, or has a component out of range.
pub fn pair_cases(text: &[u8])
    ensures { ((p : ℤ) × IsPlainText text.now p) ⊎ (¬ HasSome HasPlainForm text.now)
        ⊎ ((why : ComponentRange) × HasError HasPlainForm IsPlainError text.now why) }
{
    let _ = plain::parse(text);
}

/// States that a string is a date-time at an offset, has no such form, or has a component out of
/// range.
pub fn offset_date_time_cases(text: &[u8])
    ensures { ((m : LocalAndOffset) × IsOffsetDateTimeText text.now m)
        ⊎ (¬ HasSome HasOffsetDateTimeForm text.now)
        ⊎ ((why : ComponentRange)
        × HasError HasOffsetDateTimeForm IsOffsetDateTimeError text.now why) }
{
    let _ = offset_date_time::parse(text);
}

/// States that a string is a duration, has no such form, or has a part out of range.
pub fn duration_cases(text: &[u8])
    ensures { ((v : ℤ) × IsDurationText text.now v) ⊎ (¬ HasSome HasDurationForm text.now)
        ⊎ ((why : DurationComponent)
        × durations.HasError HasDurationForm IsDurationError text.now why) }
{
    let _ = duration::parse(text);
}

/// States that a string is a period, has no such form, or has a part out of range.
pub fn period_cases(text: &[u8])
    ensures { ((p : Parts) × IsPeriodText text.now p) ⊎ (¬ HasSome HasPeriodForm text.now)
        ⊎ ((why : DurationComponent)
        × durations.HasError HasPeriodForm IsPeriodError text.now why) }
{
    let _ = period::parse(text);
}
