//! The files of zones, holidays and events that the arguments name. A file is read when its name is parsed,
//! since later words may depend on it, as `today` does on `--zone`.
pub mod data_error;
pub mod system_files;
