//! Time zones: the offset at an instant, and the instants at which clocks show a reading.
//!
//! The instants that a reading names are proved to be exactly those at which the clocks of the zone
//! show it: one, none in a gap, or two in a fold.
#![tactic(auto)]

mod change;
mod change_error;
mod conversions;
mod gap;
mod guesses;
mod instants;
pub mod laws;
mod layout;
mod local;
mod local_time_error;
mod local_type;
mod policy;
mod rule;
mod span;
mod table;
mod timeline_error;
mod unchecked_zone;
mod yearly;
mod zone;
mod zone_parts;

pub use change::Change;
pub use change_error::ChangeError;
pub use conversions::in_zone;
pub use gap::Gap;
pub use guesses::Guesses;
pub use instants::Instants;
pub use layout::Layout;
pub use local::Local;
pub use local_time_error::LocalTimeError;
pub use local_type::LocalType;
pub use policy::Policy;
pub use rule::Rule;
pub use span::Span;
pub use table::Table;
pub use timeline_error::TimelineError;
pub use unchecked_zone::UncheckedZone;
pub use yearly::Yearly;
pub use zone::{Zone, join};
pub use zone_parts::ZoneParts;
