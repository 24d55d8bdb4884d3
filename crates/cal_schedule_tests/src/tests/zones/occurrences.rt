//! Recurrence sets in a zone.

mod one_answer;
