//! The range of a component that is out of it, and what the range depends on.
ghost use Rattle.std.specs.Prelude.{◌≡◌, ◌≤◌, ◌++◌, length};
ghost use Rattle.cal_errors.specs.Components.{is_outside, name_of, outside_text, place_text, range_text};
ghost use Rattle.cal_errors.specs.Sentences.{HasRoom};

use crate::sentence::Sentence;
use cal_units::Month;
use cal_units::error::Component;

/// What the range of a component depends on.
#[derive(Clone, Copy, Debug)]
pub enum Place {
    /// The range is always the same.
    Anywhere,
    /// The range is the range in this year.
    Year(i32),
    /// The range is the range in this year and month.
    Month(i32, Month),
}

/// The value of a component, and its range.
#[derive(Clone, Copy, Debug)]
pub struct Bounds {
    /// The value.
    pub value: i64,
    /// The minimum.
    pub min: i64,
    /// The maximum.
    pub max: i64,
    /// What the range depends on.
    pub place: Place,
}

impl Bounds {
    /// Returns `true` if the value is out of the range.
    pub fn is_outside(self) -> bool
        ensures { result ≡ is_outside self }
    {
        self.value < self.min || self.value > self.max
    }

    /// Returns the sentence of a component with this value.
    pub fn sentence(self, component: Component) -> Sentence
        ensures { result ≡ outside_text component self }
    {
        let mut text = Sentence::new();
        text.push(name_of(component).as_bytes());
        text.push(b" ");
        text.push_number(i128::from(self.value));
        text.push(b" is out of range ");
        self.push_range(&mut text);
        text
    }

    /// Appends the range, such as `1 to 28 (February 2023)`.
    fn push_range(self, text: &mut Sentence)
        requires { HasRoom 137 text.old }
        ensures { text.new ≡ text.old ++ range_text self }
    {
        text.push_number(i128::from(self.min));
        text.push(b" to ");
        text.push_number(i128::from(self.max));
        push_place(text, self.place);
    }
}

/// Returns the name of a component in a sentence: `julian day` for the Julian day.
fn name_of(component: Component) -> &'static str
    ensures value { result.now ≡ name_of component }
    ensures max_length { length result.now ≤ 13 }
{
    match component {
        Component::JulianDay => "julian day",
        _ => component.name(),
    }
}

/// Appends what a range depends on, such as ` (February 2023)`.
fn push_place(text: &mut Sentence, place: Place)
    requires { HasRoom 53 text.old }
    ensures { text.new ≡ text.old ++ place_text place }
{
    match place {
        Place::Anywhere => {}
        Place::Year(year) => {
            text.push(b" (");
            text.push_number(i128::from(year));
            text.push(b")");
        }
        Place::Month(year, month) => {
            text.push(b" (");
            text.push(month.name().as_bytes());
            text.push(b" ");
            text.push_number(i128::from(year));
            text.push(b")");
        }
    }
}
