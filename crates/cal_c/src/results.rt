//! Durations, moments and results. A result with an error has numbers that no valid value has.
ghost use Rattle.std.specs.Prelude.{◌≡◌};
ghost use Rattle.cal_time.specs.Date.{julian_day_at};
ghost use Rattle.cal_c.specs.Results.{IsInt64OrOutOfRange, date_ok, date_error, date_or_out_of_range, number_ok, number_error, calendar_date_error, ordinal_date_error, iso_week_date_error, duration_ok, duration_or_out_of_range, duration_error, time_ok, time_error, hms_nano_error, adjusted_time_ok, adjusted_time_error, offset_ok, offset_error, offset_hms_error, int64_ok, int64_error, pair_or_out_of_range, pair_error};
ghost use Rattle.cal_c.specs.Moments.{moment_ok, moment_error};
ghost use Rattle.cal_time.specs.Time.{carry};

use crate::status::{OK, RESULT_OUT_OF_RANGE};
use crate::values::{days_of, nanoseconds_since_midnight};
use cal_datetime::OffsetDateTime;
use cal_time::util::DateAdjustment;
use cal_time::{Date, SignedDuration, Time, UtcOffset};

/// A duration: whole seconds, and nanoseconds from -999999999 to 999999999 with the same sign.
#[repr(C)]
#[derive(Clone, Copy, Debug)]
pub struct Duration {
    pub seconds: i64,
    pub nanoseconds: i32,
    /// 0, in place of padding.
    pub unused: u32,
}

/// A result with a date, as its Julian day. After an error it is `i32::MIN`.
#[repr(C)]
#[derive(Clone, Copy, Debug)]
pub struct DateResult {
    pub status: i32,
    pub date: i32,
}

/// A result with a component or another number. After an error it is `i32::MIN`.
#[repr(C)]
#[derive(Clone, Copy, Debug)]
pub struct NumberResult {
    pub status: i32,
    pub number: i32,
}

/// A result with a duration. After an error its seconds are `i64::MIN`.
#[repr(C)]
#[derive(Clone, Copy, Debug)]
pub struct DurationResult {
    pub status: i32,
    /// 0, in place of padding.
    pub unused: u32,
    pub duration: Duration,
}

/// A result with a time of day, in nanoseconds since midnight. After an error it is `u64::MAX`.
#[repr(C)]
#[derive(Clone, Copy, Debug)]
pub struct TimeResult {
    pub status: i32,
    /// 0, in place of padding.
    pub unused: u32,
    pub time: u64,
}

/// A result with the components of a time of day. After an error each of them is `u32::MAX`.
#[repr(C)]
#[derive(Clone, Copy, Debug)]
pub struct HmsNanoResult {
    pub status: i32,
    pub hour: u32,
    pub minute: u32,
    pub second: u32,
    pub nanosecond: u32,
}

/// A result with a time of day, in nanoseconds since midnight, and the days carried: -1, 0 or 1.
/// After an error they are `u64::MAX` and `i32::MIN`.
#[repr(C)]
#[derive(Clone, Copy, Debug)]
pub struct AdjustedTimeResult {
    pub status: i32,
    pub carry: i32,
    pub time: u64,
}

/// A result with an offset, in seconds. After an error it is `i32::MIN`.
#[repr(C)]
#[derive(Clone, Copy, Debug)]
pub struct OffsetResult {
    pub status: i32,
    pub offset: i32,
}

/// A result with the components of an offset, all of one sign. After an error each of them is
/// `i32::MIN`.
#[repr(C)]
#[derive(Clone, Copy, Debug)]
pub struct OffsetHmsResult {
    pub status: i32,
    pub hours: i32,
    pub minutes: i32,
    pub seconds: i32,
}

/// A result with a number in 64 bits. After an error it is `i64::MIN`.
#[repr(C)]
#[derive(Clone, Copy, Debug)]
pub struct Int64Result {
    pub status: i32,
    /// 0, in place of padding.
    pub unused: u32,
    pub number: i64,
}

/// A result with a date, as its Julian day, and a time of day, in nanoseconds since midnight. After
/// an error they are `i32::MIN` and `u64::MAX`.
#[repr(C)]
#[derive(Clone, Copy, Debug)]
pub struct PairResult {
    pub status: i32,
    pub date: i32,
    pub time: u64,
}

/// A result with a calendar date. After an error its year is `i32::MIN`, and the others are 0.
#[repr(C)]
#[derive(Clone, Copy, Debug)]
pub struct CalendarDateResult {
    pub status: i32,
    pub year: i32,
    pub month: u32,
    pub day: u32,
}

/// A result with an ordinal date. After an error its year is `i32::MIN`, and its ordinal is 0.
#[repr(C)]
#[derive(Clone, Copy, Debug)]
pub struct OrdinalDateResult {
    pub status: i32,
    pub year: i32,
    pub ordinal: u32,
}

/// A result with an ISO week date. After an error its year is `i32::MIN`, and the others are 0.
#[repr(C)]
#[derive(Clone, Copy, Debug)]
pub struct IsoWeekDateResult {
    pub status: i32,
    pub year: i32,
    pub week: u32,
    pub weekday: u32,
}

impl DateResult {
    pub fn ok(date: Date) -> Self
        ensures { result ≡ date_ok (julian_day_at date) }
    {
        DateResult {
            status: OK,
            date: date.to_julian_day(),
        }
    }

    pub fn error(status: i32) -> Self
        ensures { result ≡ date_error status }
    {
        DateResult {
            status,
            date: i32::MIN,
        }
    }

    pub fn from_option(date: Option<Date>) -> Self
        ensures { result ≡ date_or_out_of_range date }
    {
        let date = or_return!(date, Self::error(RESULT_OUT_OF_RANGE));
        Self::ok(date)
    }
}

impl NumberResult {
    pub fn ok(number: i32) -> Self
        ensures { result ≡ number_ok number }
    {
        NumberResult { status: OK, number }
    }

    pub fn error(status: i32) -> Self
        ensures { result ≡ number_error status }
    {
        NumberResult {
            status,
            number: i32::MIN,
        }
    }
}

impl CalendarDateResult {
    pub fn error(status: i32) -> Self
        ensures { result ≡ calendar_date_error status }
    {
        CalendarDateResult {
            status,
            year: i32::MIN,
            month: 0,
            day: 0,
        }
    }
}

impl OrdinalDateResult {
    pub fn error(status: i32) -> Self
        ensures { result ≡ ordinal_date_error status }
    {
        OrdinalDateResult {
            status,
            year: i32::MIN,
            ordinal: 0,
        }
    }
}

impl IsoWeekDateResult {
    pub fn error(status: i32) -> Self
        ensures { result ≡ iso_week_date_error status }
    {
        IsoWeekDateResult {
            status,
            year: i32::MIN,
            week: 0,
            weekday: 0,
        }
    }
}

impl DurationResult {
    pub fn ok(duration: SignedDuration) -> Self
        ensures { result ≡ duration_ok duration }
    {
        DurationResult {
            status: OK,
            unused: 0,
            duration: Duration {
                seconds: duration.whole_seconds(),
                nanoseconds: duration.subsec_nanoseconds(),
                unused: 0,
            },
        }
    }

    pub fn from_option(duration: Option<SignedDuration>) -> Self
        ensures { result ≡ duration_or_out_of_range duration }
    {
        let duration = or_return!(duration, Self::error(RESULT_OUT_OF_RANGE));
        Self::ok(duration)
    }

    pub fn error(status: i32) -> Self
        ensures { result ≡ duration_error status }
    {
        DurationResult {
            status,
            unused: 0,
            duration: Duration {
                seconds: i64::MIN,
                nanoseconds: i32::MIN,
                unused: 0,
            },
        }
    }
}

impl TimeResult {
    pub fn ok(time: Time) -> Self
        ensures { result ≡ time_ok time }
    {
        TimeResult {
            status: OK,
            unused: 0,
            time: nanoseconds_since_midnight(time),
        }
    }

    pub fn error(status: i32) -> Self
        ensures { result ≡ time_error status }
    {
        TimeResult {
            status,
            unused: 0,
            time: u64::MAX,
        }
    }
}

impl HmsNanoResult {
    pub fn error(status: i32) -> Self
        ensures { result ≡ hms_nano_error status }
    {
        HmsNanoResult {
            status,
            hour: u32::MAX,
            minute: u32::MAX,
            second: u32::MAX,
            nanosecond: u32::MAX,
        }
    }
}

impl AdjustedTimeResult {
    pub fn ok(adjustment: DateAdjustment, time: Time) -> Self
        ensures { result ≡ adjusted_time_ok (carry adjustment) time }
    {
        AdjustedTimeResult {
            status: OK,
            carry: days_of(adjustment),
            time: nanoseconds_since_midnight(time),
        }
    }

    pub fn error(status: i32) -> Self
        ensures { result ≡ adjusted_time_error status }
    {
        AdjustedTimeResult {
            status,
            carry: i32::MIN,
            time: u64::MAX,
        }
    }
}

impl OffsetResult {
    pub fn ok(offset: UtcOffset) -> Self
        ensures { result ≡ offset_ok offset }
    {
        OffsetResult {
            status: OK,
            offset: offset.whole_seconds(),
        }
    }

    pub fn error(status: i32) -> Self
        ensures { result ≡ offset_error status }
    {
        OffsetResult {
            status,
            offset: i32::MIN,
        }
    }
}

impl OffsetHmsResult {
    pub fn error(status: i32) -> Self
        ensures { result ≡ offset_hms_error status }
    {
        OffsetHmsResult {
            status,
            hours: i32::MIN,
            minutes: i32::MIN,
            seconds: i32::MIN,
        }
    }
}

impl Int64Result {
    pub fn ok(number: i64) -> Self
        ensures { result ≡ int64_ok number }
    {
        Int64Result {
            status: OK,
            unused: 0,
            number,
        }
    }

    /// Returns the result of a number, or of an error if it doesn't fit in an `i64`.
    pub fn from_i128(number: i128) -> Self
        ensures { IsInt64OrOutOfRange number result }
    {
        let number = or_return!(i64::try_from(number), _ => Self::error(RESULT_OUT_OF_RANGE));
        Self::ok(number)
    }

    pub fn error(status: i32) -> Self
        ensures { result ≡ int64_error status }
    {
        Int64Result {
            status,
            unused: 0,
            number: i64::MIN,
        }
    }
}

impl PairResult {
    pub fn from_option(pair: Option<(Date, Time)>) -> Self
        ensures { result ≡ pair_or_out_of_range pair }
    {
        match pair {
            Some((date, time)) => PairResult {
                status: OK,
                date: date.to_julian_day(),
                time: nanoseconds_since_midnight(time),
            },
            None => Self::error(RESULT_OUT_OF_RANGE),
        }
    }

    pub fn error(status: i32) -> Self
        ensures { result ≡ pair_error status }
    {
        PairResult {
            status,
            date: i32::MIN,
            time: u64::MAX,
        }
    }
}

/// A moment: a local date, as its Julian day, and time of day, in nanoseconds since midnight, at an
/// offset from UTC, in seconds.
#[repr(C)]
#[derive(Clone, Copy, Debug)]
pub struct Moment {
    pub date: i32,
    pub offset: i32,
    pub time: u64,
}

/// A result with a moment. After an error its date and its offset are `i32::MIN`, and its time is
/// `u64::MAX`.
#[repr(C)]
#[derive(Clone, Copy, Debug)]
pub struct MomentResult {
    pub status: i32,
    /// 0, in place of padding.
    pub unused: u32,
    pub moment: Moment,
}

impl MomentResult {
    pub fn ok(moment: OffsetDateTime) -> Self
        ensures { result ≡ moment_ok moment }
    {
        MomentResult {
            status: OK,
            unused: 0,
            moment: Moment {
                date: moment.date().to_julian_day(),
                offset: moment.offset().whole_seconds(),
                time: nanoseconds_since_midnight(moment.time()),
            },
        }
    }

    pub fn error(status: i32) -> Self
        ensures { result ≡ moment_error status }
    {
        MomentResult {
            status,
            unused: 0,
            moment: Moment {
                date: i32::MIN,
                offset: i32::MIN,
                time: u64::MAX,
            },
        }
    }
}
