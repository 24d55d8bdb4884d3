//! The words of the messages for invalid arguments.
ghost use Rattle.std.specs.Prelude.{◌≤◌, length};

use crate::args::word_error::Expected;

/// Returns the message for an expected argument without the wrong word, which stands before the `;`
/// or at the end.
pub fn message_for(expected: Expected) -> &'static str
    ensures { length result.now ≤ 330 }
{
    match expected {
        Expected::Requirement(requirement) => requirement.message(),
        Expected::Start => {
            "unknown command; expected to, add, next, last, until, since, start, end, on-or-after, on-or-before, round, at, keep, list, --date, --invalid, --field, --append, --csv, --header, --scan, --separator, --skip, --read, --assume, --assume-year, --lenient, --pivot, --language, --zone, --ambiguous, --holidays, --help or --version"
        }
        Expected::Verb => {
            "unexpected argument; expected to, add, next, last, until, since, start, end, on-or-after, on-or-before, round, at, keep or another option"
        }
        Expected::Invalid => "unknown mode; expected keep, answer, drop or stop",
        Expected::FieldNumber => {
            "invalid field number; expected an integer from 1 to 65535, two such as 1-2, or a name"
        }
        Expected::Column => "unexpected argument",
        Expected::Separator => "invalid separator; expected one byte, or \\t for a tab",
        Expected::Skip => {
            "invalid number of lines; expected an integer from 0 to 9223372036854775807"
        }
        Expected::Reading => {
            "unknown input form; expected basic, dmy, mdy, unix, unix-ms, unix-us, unix-ns, clf, rfc2822, syslog, iso, local or a format such as %d.%m.%Y"
        }
        Expected::Policy => "unknown policy; expected compatible, earlier, later or reject",
        Expected::Holidays => "cannot read holidays",
        Expected::Events => "cannot read events",
        Expected::Form => {
            "unknown form; expected calendar, ordinal, week, julian, weekday, short-weekday, month, quarter, basic, iso, rfc3339, unix, unix-ms, unix-us, unix-ns, clf, rfc2822, syslog or a format such as %d.%m.%Y"
        }
        Expected::Number => {
            "invalid number; expected an integer from -9223372036854775808 to 9223372036854775807, or a period such as P1M3DT4H"
        }
        Expected::Amount => "invalid amount; expected at most 9223372036854775807 seconds",
        Expected::UnitOfTime => {
            "unknown unit; expected days, weeks, months, years, workdays, hours, minutes or seconds"
        }
        Expected::Measure => {
            "unknown measure; expected days, weeks, months, years, workdays, hours, minutes, seconds, P, PT or HH:MM:SS"
        }
        Expected::IsoPeriod => "invalid period; expected one such as P1Y2M10DT2H30M",
        Expected::Weekday => {
            "unknown weekday; expected Monday, Tuesday, Wednesday, Thursday, Friday, Saturday or Sunday"
        }
        Expected::Count => "invalid count; expected an integer from 1 to 255",
        Expected::Target => {
            "invalid date or moment; expected one such as 2024-02-29, 2024-02-29T23:59:59Z, today or now"
        }
        Expected::Period => "unknown period; expected week, month, quarter or year",
        Expected::StartPeriod => {
            "unknown start; expected week, month, quarter, year, day, hour, minute or N minutes"
        }
        Expected::Minutes => "invalid unit; expected minutes",
        Expected::Rounding => {
            "unknown rounding; expected days, hours, minutes, seconds or a number of them, such as 15 minutes"
        }
        Expected::RoundedUnit => "invalid unit; expected days, hours, minutes or seconds",
        Expected::RoundedNumber =>
            "invalid step; expected one that divides a day, such as 15 minutes",
        Expected::Offset => "invalid offset; expected one such as +01:00, -05:30 or Z",
        Expected::Year => "invalid year; expected four digits, such as 2024, or near and a date",
        Expected::Day => "invalid day; expected a date, such as 2024-02-29",
        Expected::Pivot => "invalid pivot; expected a year from 0 to 9900, such as 1970",
        Expected::LenientFormat => {
            "ambiguous lenient format; expected no digit after a number, and no letter after a name"
        }
        Expected::Language => {
            "unknown language; expected ar, de, en, es, fr, it, ja, pl, pt, ru, tr or zh"
        }
        Expected::LanguageFormat => "ambiguous format",
        Expected::Place => {
            "invalid offset or zone; expected one such as +01:00, -05:30, Z or Europe/Berlin"
        }
        Expected::Zone => "cannot read zone",
        Expected::Bounds => "unknown bound; expected from, after or before",
        Expected::In => "unexpected argument",
        Expected::From => "unexpected argument; expected 'from'",
        Expected::Date => {
            "invalid date; expected one such as 2024-02-29, 2024-060, 2024-W09-4, J2460370 or today"
        }
        Expected::Moment => {
            "invalid moment; expected one such as 2024-02-29T23:59:59Z, @1709164800 or now"
        }
        Expected::UpTo => "unexpected argument; expected 'to'",
        Expected::By => "unexpected argument; expected 'by'",
        Expected::Many => {
            "invalid number or rule; expected an integer from 1 to 4294967295, a period such as P1M, a rule such as FREQ=MONTHLY;BYDAY=-1FR, or a file such as work.ics"
        }
        Expected::Rule | Expected::DayRule => "invalid rule",
        Expected::UnitOfDays => "invalid unit; expected days, weeks, months or years",
        Expected::StepPeriod => {
            "invalid step; expected a positive period of years and months, or of weeks and days"
        }
        Expected::End => "unexpected argument",
    }
}
