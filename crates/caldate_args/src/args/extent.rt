//! The extent of a command: its words, the options before and after them, and the files.
// Only the extent matters here: whether the words are right is found when they are parsed.
ghost use Rattle.std.specs.Prelude.{◌≤◌};

use crate::args::names::{CommandName, MoveVerb, OptionName, Verb};
use crate::args::options::{is_option, option_after, option_before_value};
use crate::args::spelling::{command_of, parse_i64, verb_of};
use caldate_lines::lines::index_of;

/// A word that may come next.
#[derive(Clone, Copy)]
enum Next {
    /// The name of a command that reads no input, an option, or a verb.
    First,
    /// TEXT of `--date`.
    Text,
    /// An option, or a verb.
    Verb,
    /// The only or last word of a command.
    Last,
    /// No further word of the command.
    End,
    /// A number or a period after `add`.
    Amount,
    /// A weekday.
    Weekday,
    /// A number of units, or a unit.
    Start,
    /// TEXT of `until` and `since`.
    Target,
    /// A field after `until field`.
    Field,
    /// `in`, or no further word.
    In,
    /// A place after `at`.
    Place,
    /// A verb after a place, or no further word.
    PlacedVerb,
    /// A unit or a count, or no further word.
    Optional,
    /// An option or a further file, after the first file.
    File,
    /// `from`, `after` or `before`.
    Bound,
    /// A date or moment after `from`.
    From,
    /// `to` after `from` and a date or moment.
    To,
    /// Any number of words: wrong ones, or words of another command.
    Any,
}

/// A part of the arguments.
#[derive(Clone, Copy)]
pub enum Part {
    /// An option or its value, or `--date` and its TEXT.
    Option,
    /// A word of the command.
    Command,
    /// A file.
    File,
}

/// The words of a command so far.
#[derive(Clone, Copy)]
pub struct Extent {
    next: Next,
    /// The option whose value is the next word, if there is one.
    option: Option<OptionName>,
    /// `true` if the command may read an input.
    reads_input: bool,
}

impl Extent {
    /// Creates the extent before the first word.
    pub fn new() -> Self {
        Extent {
            next: Next::First,
            option: None,
            reads_input: true,
        }
    }

    /// Returns whether the command may read an input.
    pub fn reads_input(&self) -> bool {
        self.reads_input
    }

    /// Returns the end of the words, of which the options come first: that of the options if the last
    /// one lacks its value, so that no word of the command is taken for it.
    pub fn end(&self, options: usize, all: usize) -> usize
        ensures { options ≤ all → result ≤ all }
    {
        if self.option.is_some() { options } else { all }
    }

    /// Takes the next word, and returns which part it is. In `to week jan --skip 1`, `jan` is a file,
    /// and `--skip` and `1` are an option.
    pub fn take(&mut self, word: &[u8]) -> Part {
        if let Some(option) = self.option {
            self.option = option_after(option, word);
            return Part::Option;
        }
        if let Next::First = self.next {
            return self.take_first(word);
        }
        if let Next::Text = self.next {
            self.next = Next::Verb;
            return Part::Option;
        }
        self.take_more(word)
    }

    /// Takes the first word.
    fn take_first(&mut self, word: &[u8]) -> Part {
        match command_of(word) {
            Some(CommandName::Date) => {
                self.next = Next::Text;
                self.reads_input = false;
                Part::Option
            }
            Some(CommandName::List | CommandName::Help | CommandName::Version) => {
                self.next = Next::Any;
                self.reads_input = false;
                Part::Command
            }
            None => {
                self.next = Next::Verb;
                self.take_more(word)
            }
        }
    }

    /// Takes an option or a word of the command, or finds a file.
    fn take_more(&mut self, word: &[u8]) -> Part {
        if may_take_option(self.next) && is_option(word) {
            self.option = option_before_value(word);
            return Part::Option;
        }
        if self.reads_input && is_file_after(self.next, word) {
            self.next = Next::File;
            return Part::File;
        }
        self.next = next_after(self.next, word);
        Part::Command
    }
}

/// Returns whether an option may come: before the verb, after the words that a command needs, and
/// after a file.
fn may_take_option(next: Next) -> bool {
    match next {
        Next::Verb | Next::End | Next::In | Next::PlacedVerb | Next::Optional | Next::File => true,
        _ => false,
    }
}

/// Returns whether the word is a file: after a whole command or a file any word that doesn't begin
/// with `--`, and in place of a word that may be left out `-` and words with a dot or a slash.
fn is_file_after(next: Next, word: &[u8]) -> bool {
    match next {
        Next::End | Next::File => !begins_as_option(word),
        Next::In | Next::PlacedVerb | Next::Optional => is_file_like(word),
        _ => false,
    }
}

/// Returns whether the word begins with `--`.
fn begins_as_option(word: &[u8]) -> bool {
    match word {
        [b'-', b'-', ..] => true,
        _ => false,
    }
}

/// Returns whether the word is `-`, or has a dot or a slash.
fn is_file_like(word: &[u8]) -> bool {
    word == b"-".as_slice() || index_of(b'.', word).is_some() || index_of(b'/', word).is_some()
}

/// Returns what may come after a word of the command.
fn next_after(next: Next, word: &[u8]) -> Next {
    match next {
        Next::Verb => after_verb(word, false),
        Next::PlacedVerb => after_verb(word, true),
        Next::Last | Next::Optional => Next::End,
        Next::Weekday => Next::Optional,
        Next::Amount => if_number(word, Next::Optional),
        Next::Start => if_number(word, Next::Last),
        Next::Target if word == b"field".as_slice() => Next::Field,
        Next::Target | Next::Field => Next::In,
        Next::In => Next::Last,
        Next::Place => Next::PlacedVerb,
        Next::Bound => after_bound(word),
        Next::From => Next::To,
        Next::To => Next::Last,
        Next::File => Next::File,
        Next::First | Next::Text | Next::End | Next::Any => Next::Any,
    }
}

/// Returns what may come after `from`, `after` or `before`.
fn after_bound(word: &[u8]) -> Next {
    if word == b"from".as_slice() {
        Next::From
    } else if word == b"after".as_slice() || word == b"before".as_slice() {
        Next::Last
    } else {
        Next::Any
    }
}

/// Returns what may come after a number, and no further word after another one.
fn if_number(word: &[u8], next: Next) -> Next {
    match parse_i64(word) {
        Some(_) => next,
        None => Next::End,
    }
}

/// Returns what may come after a verb. A place can't be followed by another place or `keep`.
fn after_verb(word: &[u8], is_placed: bool) -> Next {
    match verb_of(word) {
        Some(Verb::To) => Next::Last,
        Some(Verb::Move(verb)) => after_move(verb),
        Some(Verb::Until | Verb::Since) => Next::Target,
        Some(Verb::At) if !is_placed => Next::Place,
        Some(Verb::Keep) if !is_placed => Next::Bound,
        _ => Next::Any,
    }
}

/// Returns what may come after the verb of a move.
fn after_move(verb: MoveVerb) -> Next {
    match verb {
        MoveVerb::Add => Next::Amount,
        MoveVerb::Next | MoveVerb::Last => Next::Weekday,
        MoveVerb::Start | MoveVerb::Round => Next::Start,
        MoveVerb::End | MoveVerb::OnOrAfter | MoveVerb::OnOrBefore => Next::Last,
    }
}
