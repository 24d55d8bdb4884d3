//! Several texts as one input.
ghost use Rattle.std.specs.Prelude.{Some, map, ⊤};

use caldate_args::files::Texts;
use std::io::{self, Read};

/// Texts in memory.
#[derive(Drop)]
pub struct Slices<'a> {
    pub rest: &'a [u8],
    pub later: &'a [&'a [u8]],
}

impl Texts for Slices<'_> {
    ghost rest = { λ slices. Some slices.rest.now };

    ghost later = { λ slices. Some (map (λ text. text.now) slices.later.now) };

    ghost leads = { λ old new. ⊤ };

    fn read(&mut self, buffer: &mut [u8]) -> io::Result<usize> {
        Read::read(&mut self.rest, buffer)
    }

    fn go_on(&mut self) -> bool {
        match self.later {
            [next, more @ ..] => {
                self.rest = next;
                self.later = more;
                true
            }
            [] => false,
        }
    }
}
