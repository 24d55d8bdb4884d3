//! Under the names of `cal_time` only.
ghost use Rattle.std.specs.Prelude.{◌≡◌};
ghost use Rattle.std.specs.List.{fold};
ghost use Rattle.std.specs.Hash.DefaultHasher as hasher;

use std::hash::{DefaultHasher, Hash, Hasher};

pub mod conditions;
pub mod counted;
pub mod laws;
mod one_answer;
pub mod walks;

/// Returns the hash of a value.
pub fn hash_of<T: Hash>(value: &T) -> u64
    ensures { result ≡ hasher.finish (fold hasher.write hasher.initial (T.hash_input value.now)) }
{
    let mut state = DefaultHasher::new();
    value.hash(&mut state);
    state.finish()
}
