//! The sentences of statuses and of components that are out of range.
ghost use Rattle.std.specs.Prelude.{◌≡◌, IfSome, Some};
ghost use Rattle.cal_errors.specs.Components.{bounds_of, sentence_in};
ghost use Rattle.cal_errors.specs.Statuses.{sentence};
ghost use Rattle.cal_time.specs.declared.error.Component.{Component};
ghost use Rattle.cal_c.specs.Errors.{component_text, error_text};
ghost use Rattle.cal_c.specs.Statuses.{component_status};

use super::ErrorText;
use crate::status::{
    DAY_OUT_OF_RANGE, HOUR_OUT_OF_RANGE, JULIAN_DAY_OUT_OF_RANGE, MICROSECOND_OUT_OF_RANGE,
    MILLISECOND_OUT_OF_RANGE, MINUTE_OUT_OF_RANGE, MONTH_OUT_OF_RANGE, NANOSECOND_OUT_OF_RANGE,
    OFFSET_HOUR_OUT_OF_RANGE, OFFSET_MINUTE_OUT_OF_RANGE, OFFSET_SECOND_OUT_OF_RANGE,
    ORDINAL_OUT_OF_RANGE, SECOND_OUT_OF_RANGE, SECONDS_OUT_OF_RANGE, TIMESTAMP_OUT_OF_RANGE,
    WEEK_OUT_OF_RANGE, WEEKDAY_OUT_OF_RANGE, YEAR_OUT_OF_RANGE,
};
use cal_errors::{Components, component_sentence, sentence_of};
use cal_time::error::Component;

/// Returns the sentence of a status, such as `invalid weekday; expected 1 (Monday) to 7 (Sunday)`.
/// Other numbers are an `unknown error`.
#[unsafe(no_mangle)]
pub extern "C" fn fots_error_text(status: i32) -> ErrorText
    ensures { result ≡ error_text (sentence status) }
{
    ErrorText::new(sentence_of(status).as_bytes())
}

/// Returns the sentence of a component that is out of range, with its value, its range and what that
/// depends on: `day 29 is out of range 1 to 28 (February 2023)`. If the value is in the range, or has
/// none, it is the sentence of the status, as for other statuses.
#[unsafe(no_mangle)]
pub extern "C" fn fots_component_error_text(status: i32, components: &Components) -> ErrorText
    ensures component { (c : Component) → status ≡ component_status c
        → result ≡ error_text (component_text status (sentence_in c (bounds_of c components.now))) }
    ensures other { ((c : Component) → ¬ (status ≡ component_status c))
        → result ≡ error_text (sentence status) }
{
    if let Some(component) = component_with(status) {
        if let Some(text) = component_sentence(component, components) {
            return ErrorText::new(text.as_bytes());
        }
    }
    ErrorText::new(sentence_of(status).as_bytes())
}

/// Returns the component that a status names, or `None`.
pub(super) fn component_with(status: i32) -> Option<Component>
    ensures every { (c : Component) → status ≡ component_status c → result ≡ Some c }
    ensures value { IfSome result (λ c. status ≡ component_status c) }
{
    match status {
        YEAR_OUT_OF_RANGE => Some(Component::Year),
        MONTH_OUT_OF_RANGE => Some(Component::Month),
        DAY_OUT_OF_RANGE => Some(Component::Day),
        ORDINAL_OUT_OF_RANGE => Some(Component::Ordinal),
        WEEK_OUT_OF_RANGE => Some(Component::Week),
        WEEKDAY_OUT_OF_RANGE => Some(Component::Weekday),
        JULIAN_DAY_OUT_OF_RANGE => Some(Component::JulianDay),
        HOUR_OUT_OF_RANGE => Some(Component::Hour),
        MINUTE_OUT_OF_RANGE => Some(Component::Minute),
        SECOND_OUT_OF_RANGE => Some(Component::Second),
        MILLISECOND_OUT_OF_RANGE => Some(Component::Millisecond),
        MICROSECOND_OUT_OF_RANGE => Some(Component::Microsecond),
        NANOSECOND_OUT_OF_RANGE => Some(Component::Nanosecond),
        OFFSET_HOUR_OUT_OF_RANGE => Some(Component::OffsetHour),
        OFFSET_MINUTE_OUT_OF_RANGE => Some(Component::OffsetMinute),
        OFFSET_SECOND_OUT_OF_RANGE => Some(Component::OffsetSecond),
        SECONDS_OUT_OF_RANGE => Some(Component::Seconds),
        TIMESTAMP_OUT_OF_RANGE => Some(Component::Timestamp),
        _ => None,
    }
}
