//! Zones of files and texts.

mod one_answer;
