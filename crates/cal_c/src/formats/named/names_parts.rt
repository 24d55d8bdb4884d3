//! The names of a language as C passes them.
ghost use Rattle.std.specs.Prelude.{◌≡◌, ◌<◌, ◌≤◌, ◌↔◌, All, IsTrue, MatchOption, length};
ghost use Rattle.cal_names.specs.Apart.{texts, text_at};
ghost use Rattle.cal_names.specs.Languages.{AreShort};
ghost use Rattle.cal_names.specs.NameShape.{longest};
ghost use Rattle.cal_c.specs.NamedFormats.{AreNames, HasNames, IsName};

use cal_names::Names;
use cal_names::table::name_at;
use std::str::from_utf8;

/// Empty names.
pub(super) const NO_NAMES: Names<'static> = Names {
    months: [""; 12],
    months_alone: [""; 12],
    short_months: [""; 12],
    weekdays: [""; 7],
    short_weekdays: [""; 7],
    periods: [""; 2],
    lower_periods: [""; 2],
};

/// The maximum length of a name in bytes.
pub(super) const MAX_NAME_LENGTH: usize = 127;

/// The names of a language, each in the memory of the caller. Months are from January on, weekdays
/// from Monday on, and the name before noon comes first.
#[repr(C)]
#[derive(Clone, Copy, Debug)]
pub struct NamesParts<'a> {
    /// The months beside a day.
    pub months: [&'a [u8]; 12],
    /// The months without a day.
    pub months_alone: [&'a [u8]; 12],
    pub short_months: [&'a [u8]; 12],
    pub weekdays: [&'a [u8]; 7],
    pub short_weekdays: [&'a [u8]; 7],
    /// The halves of the day, such as `AM` and `PM`.
    pub periods: [&'a [u8]; 2],
    pub lower_periods: [&'a [u8]; 2],
}

impl<'a> NamesParts<'a> {
    /// Writes the bytes of names.
    pub(super) fn set(&mut self, names: &Names<'a>)
        ensures same { HasNames self.new names.now }
        ensures names { AreShort names.now → AreNames self.new }
    {
        write_bytes(&names.months, &mut self.months);
        write_bytes(&names.months_alone, &mut self.months_alone);
        write_bytes(&names.short_months, &mut self.short_months);
        write_bytes(&names.weekdays, &mut self.weekdays);
        write_bytes(&names.short_weekdays, &mut self.short_weekdays);
        write_bytes(&names.periods, &mut self.periods);
        write_bytes(&names.lower_periods, &mut self.lower_periods);
    }

    /// Returns the names, or `None` if one of them isn't UTF-8 of at most 127 bytes.
    pub(super) fn to_names(&self) -> Option<Names<'a>>
        ensures { MatchOption result (¬ AreNames self.now)
            (λ names. HasNames self.now names × AreNames self.now) }
    {
        let mut names = NO_NAMES;
        if !convert(&self.months, &mut names.months) {
            return None;
        }
        if !convert(&self.months_alone, &mut names.months_alone) {
            return None;
        }
        if !convert(&self.short_months, &mut names.short_months) {
            return None;
        }
        if !convert(&self.weekdays, &mut names.weekdays) {
            return None;
        }
        if !convert(&self.short_weekdays, &mut names.short_weekdays) {
            return None;
        }
        if !convert(&self.periods, &mut names.periods) {
            return None;
        }
        if !convert(&self.lower_periods, &mut names.lower_periods) {
            return None;
        }
        Some(names)
    }
}

/// Writes the bytes of names.
fn write_bytes<'a>(names: &[&'a str], bytes: &mut [&'a [u8]])
    requires { length bytes.old ≡ length names.now }
    ensures same { texts bytes.new ≡ texts names.now }
    ensures names { longest (texts names.now) ≤ 127 → All IsName (texts names.now) }
{
    for index in 0..names.len() {
        bytes[index] = name_at(names, index).as_bytes();
    }
}

/// Writes names as strings, or returns `false` if one of them isn't UTF-8 of at most 127 bytes.
fn convert<'a>(names: &[&'a [u8]], strings: &mut [&'a str]) -> bool
    requires { length strings.old ≡ length names.now }
    ensures names { IsTrue result ↔ All IsName (texts names.now) }
    ensures value { IsTrue result → texts names.now ≡ texts strings.new }
{
    for index in 0..names.len() {
        match string_of(bytes_at(names, index)) {
            Some(string) => strings[index] = string,
            None => return false,
        }
    }
    true
}

/// Returns the name with an index.
fn bytes_at<'a>(names: &[&'a [u8]], index: usize) -> &'a [u8]
    requires { index < length names.now }
    ensures { result.now ≡ text_at names.now index }
{
    names[index]
}

/// Returns a name as a string, or `None` if it isn't UTF-8 of at most 127 bytes.
fn string_of(name: &[u8]) -> Option<&str>
    ensures { MatchOption result (¬ IsName name.now)
        (λ string. (string.now ≡ name.now) × IsName name.now) }
{
    if name.len() > MAX_NAME_LENGTH {
        return None;
    }
    match from_utf8(name) {
        Ok(string) => Some(string),
        Err(_) => None,
    }
}
