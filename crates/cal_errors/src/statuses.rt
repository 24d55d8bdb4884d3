//! The sentence of each status of the library for C.
ghost use Rattle.std.specs.Prelude.{◌≡◌, ◌+◌, ◌≤◌, ◌++◌, ◌≤ℤ◌, pos, length};
ghost use Rattle.cal_errors.specs.Sentences.{HasRoom};
ghost use Rattle.cal_errors.specs.Statuses.{sentence, with_position};

use crate::sentence::Sentence;

/// Returns the sentence of a status, such as `invalid weekday; expected 1 (Monday) to 7 (Sunday)` for
/// 6. Other numbers are an `unknown error`.
pub fn sentence_of(status: i32) -> Sentence
    ensures { result ≡ sentence status }
{
    let mut text = Sentence::new();
    text.push(sentence_str(status).as_bytes());
    text
}

/// Returns the sentence of a status with its position, unless that is the maximum: `invalid POSIX
/// offset at position 3; expected an offset of at most 24 hours` for 59 and 3.
pub fn sentence_at(status: i32, position: usize) -> Sentence
    ensures { result ≡ with_position position (sentence status) }
{
    let mut text = Sentence::new();
    push_with_position(&mut text, sentence_str(status).as_bytes(), position);
    text
}

/// Appends words, with a position before their first semicolon or at their end.
fn push_with_position(text: &mut Sentence, words: &[u8], position: usize)
    requires { HasRoom (length words.now + 33) text.old }
    ensures { text.new ≡ text.old ++ with_position position words.now }
{
    match words {
        [] => text.push_position(position),
        [first, others @ ..] => {
            if *first == b';' {
                text.push_position(position);
                text.push(words);
            } else {
                text.push(&[*first]);
                push_with_position(text, others, position);
            }
        }
    }
}

/// Returns the sentence of a status, at most 100 bytes.
#[tactic(auto, using(crate::proofs::UnknownStatuses::unknown_statuses))]
fn sentence_str(status: i32) -> &'static str
    ensures value { result.now ≡ sentence status }
    ensures max_length { length result.now ≤ 100 }
{
    if status < 0 {
        "unknown error"
    } else if status < 16 {
        argument_sentence(status)
    } else if status < 30 {
        component_sentence(status)
    } else if status < 45 {
        string_sentence(status)
    } else if status < 64 {
        zone_sentence(status)
    } else if status < 81 {
        part_sentence(status)
    } else if status < 95 {
        line_sentence(status)
    } else {
        "unknown error"
    }
}

/// Returns the sentence of the status of an argument.
#[tactic(auto, unfolding(crate::specs::Statuses::sentence, crate::specs::Statuses::sentences))]
fn argument_sentence(status: i32) -> &'static str
    requires from { pos 0 ≤ℤ status }
    requires to { status ≤ℤ pos 15 }
    ensures value { result.now ≡ sentence status }
    ensures max_length { length result.now ≤ 100 }
{
    match status {
        0 => "no error",
        1 => "the result is out of range, or does not exist",
        2 => "invalid date; expected a Julian day from -363521074 to 366963559",
        3 => "invalid time; expected 0 to 86399999999999 nanoseconds since midnight",
        4 => "invalid offset; expected -93599 to 93599 seconds",
        5 => "invalid duration; expected -999999999 to 999999999 ns, signed like the seconds",
        6 => "invalid weekday; expected 1 (Monday) to 7 (Sunday)",
        7 => "invalid count; expected n from 0 to 255",
        8 => "unexpected byte",
        9 => "invalid moment; expected a valid date, time and offset",
        10 => "invalid frequency; expected 1 (daily) to 4 (yearly)",
        11 => "too many values in a list of a rule; expected at most 62",
        12 => "invalid convention; expected 0 to 4, or 1 to 5 for a count of days",
        13 => "invalid weekmask; expected 0 to 127, with a bit for each weekday",
        14 => "holidays must be in ascending order, without duplicates",
        _ => "too many holidays; expected at most 1024",
    }
}

/// Returns the sentence of the status of a component.
#[tactic(auto, unfolding(crate::specs::Statuses::sentence, crate::specs::Statuses::sentences))]
fn component_sentence(status: i32) -> &'static str
    requires from { pos 16 ≤ℤ status }
    requires to { status ≤ℤ pos 29 }
    ensures value { result.now ≡ sentence status }
    ensures max_length { length result.now ≤ 100 }
{
    match status {
        16 => "year is out of range",
        17 => "month is out of range",
        18 => "julian day is out of range",
        19 => "hour is out of range",
        20 => "minute is out of range",
        21 => "second is out of range",
        22 => "millisecond is out of range",
        23 => "microsecond is out of range",
        24 => "nanosecond is out of range",
        25 => "offset hour is out of range",
        26 => "offset minute is out of range",
        27 => "offset second is out of range",
        28 => "seconds are out of range",
        _ => "timestamp is out of range",
    }
}

/// Returns the sentence of the status of a string, a recurrence or a format.
#[tactic(auto, unfolding(crate::specs::Statuses::sentence, crate::specs::Statuses::sentences))]
fn string_sentence(status: i32) -> &'static str
    requires from { pos 30 ≤ℤ status }
    requires to { status ≤ℤ pos 44 }
    ensures value { result.now ≡ sentence status }
    ensures max_length { length result.now ≤ 100 }
{
    match status {
        30 => "invalid bounds; expected ascending positions in the texts",
        31 => "unexpected end",
        32 => "unknown part",
        33 => "duplicate part",
        34 => "too many values; expected at most 62",
        35 => "invalid value",
        36 => "missing FREQ",
        37 => "invalid format; expected one that a function made",
        38 => "unknown item",
        39 => "too many items in a format; expected at most 64",
        40 => "the format shows something that the value doesn't have",
        41 => "the texts of a format don't determine such a value",
        42 => "the buffer has no room for the text",
        43 => "a component contradicts the other components",
        _ => "too many dates or exceptions of a rule; expected at most 1024",
    }
}

/// Returns the sentence of the status of a zone or a file.
#[tactic(auto, unfolding(crate::specs::Statuses::sentence, crate::specs::Statuses::sentences))]
fn zone_sentence(status: i32) -> &'static str
    requires from { pos 45 ≤ℤ status }
    requires to { status ≤ℤ pos 63 }
    ensures value { result.now ≡ sentence status }
    ensures max_length { length result.now ≤ 100 }
{
    match status {
        45 => "invalid zone; expected one that a function made",
        46 => "invalid policy; expected 0 (compatible) to 3 (reject)",
        47 => "the clocks of the zone skip the date and time",
        48 => "the clocks of the zone show the date and time twice",
        49 => "not a zone file; expected TZif",
        50 => "unsupported version; expected 2, 3 or 4",
        51 => "leap seconds; expected a file without them",
        52 => "missing local time type",
        53 => "invalid type index",
        54 =>
            "invalid local time type; expected an offset of at most 93599 seconds and a flag 0 or 1",
        55 => "invalid abbreviation; expected ASCII, and at least 3 letters in a POSIX text",
        56 => "changes out of order; expected rising instants from -2^60 to 2^60",
        57 => "overlapping changes; expected gaps and folds apart from each other",
        58 => "missing newline; expected a footer between two newlines",
        59 => "invalid POSIX offset; expected an offset of at most 24 hours",
        60 => "invalid day of a rule; expected a day such as M3.5.0",
        61 => "invalid time of a rule; expected a time of at most 167 hours",
        62 => "months of a rule too close; expected a month between them",
        _ => "trailing bytes; expected the end",
    }
}

/// Returns the sentence of the status of a date, a period or a part of a duration.
#[tactic(auto, unfolding(crate::specs::Statuses::sentence, crate::specs::Statuses::sentences))]
fn part_sentence(status: i32) -> &'static str
    requires from { pos 64 ≤ℤ status }
    requires to { status ≤ℤ pos 80 }
    ensures value { result.now ≡ sentence status }
    ensures max_length { length result.now ≤ 100 }
{
    match status {
        64 => "day is out of range",
        65 => "ordinal is out of range",
        66 => "week is out of range",
        67 => "weekday is out of range",
        68 => "invalid period; expected parts of one sign and a valid duration",
        69 => "a date has no time of day, so a period of it has no duration",
        70 => "the offset of the moment isn't that of the zone at its instant",
        71 => "invalid unit; expected 1 (day) to 5 (year)",
        72 => "invalid range; expected two dates, and no end before the start",
        73 =>
            "invalid rounding unit; expected a positive duration, which divides 24 h for times of day",
        74 => "invalid rounding mode; expected 0 (floor) to 4 (half even)",
        75 => "years are out of range",
        76 => "months are out of range",
        77 => "weeks are out of range",
        78 => "days are out of range",
        79 => "hours are out of range",
        _ => "minutes are out of range",
    }
}

/// Returns the sentence of the status of an interval, a calendar file, a rule of a holiday or names.
#[tactic(auto, unfolding(crate::specs::Statuses::sentence, crate::specs::Statuses::sentences))]
fn line_sentence(status: i32) -> &'static str
    requires from { pos 81 ≤ℤ status }
    requires to { status ≤ℤ pos 94 }
    ensures value { result.now ≡ sentence status }
    ensures max_length { length result.now ≤ 100 }
{
    match status {
        81 => "the end of the interval is before its start",
        82 => "missing start; expected the start of the interval to repeat",
        83 => "period not positive; expected a positive period to repeat",
        84 => "count out of range; expected 1 to 4294967295 repetitions",
        85 => "invalid calendar; expected 0 (TARGET) to 19 (Thuringia)",
        86 => "unclosed event; expected a line END:VEVENT",
        87 => "other end of an event; expected END:VEVENT",
        88 => "other zone; expected the zone of the lines before it",
        89 => "wrong kind of value; expected the kind that the call reads",
        90 => "invalid rule of a holiday; expected a day, years or a move",
        91 => "invalid names; expected UTF-8 of at most 127 bytes each",
        92 => "unknown language; expected ar, de, en, es, fr, it, ja, pl, pt, ru, tr or zh",
        93 => "ambiguous names; expected names that end before what comes after them",
        _ => "ambiguous number; expected another byte after it",
    }
}
