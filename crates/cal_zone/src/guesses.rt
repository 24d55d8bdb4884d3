//! Guesses for many searches in one table.
ghost use Rattle.std.specs.Prelude.{length, ◌≤◌};

use crate::Table;

/// The searches before the guesses are counted, which takes about as long as they do.
const SEARCHES: u32 = 64;

/// The seconds of a part: 194 days, in which clocks seldom change more than twice.
const PART: u64 = 16_777_216;

/// Guesses for many searches in the same zone: how many changes of its table are not after an
/// instant. They are counted after 64 searches, for each 194 days of the 136 years before the last
/// change. They make a search short, and need not be right.
#[derive(Debug, Drop)]
pub struct Guesses {
    left: u32,
    last: i64,
    counts: [u8; 256],
}

/// Returns the count less 1 if the change before it is after an instant, else the count.
fn before(table: &Table<'_>, count: usize, instant: i64) -> usize
    requires { count ≤ length table.now }
    ensures { result ≤ count }
{
    if 0 < count && instant < table.time(count - 1) {
        count - 1
    } else {
        count
    }
}

impl Guesses {
    /// Creates guesses that are not counted yet.
    pub fn new() -> Self {
        Guesses {
            left: SEARCHES,
            last: i64::MIN,
            counts: [0; 256],
        }
    }

    /// Counts a search without a guess. The guesses are counted after enough of them.
    #[inline(always)]
    pub(crate) fn note(&mut self, table: &Table<'_>) {
        if self.left > 0 {
            self.left -= 1;
            if self.left == 0 {
                self.count(table);
            }
        }
    }

    /// Counts the changes before each part.
    #[inline(never)]
    fn count(&mut self, table: &Table<'_>) {
        let mut count = table.len();
        if count == 0 {
            return;
        }
        self.last = table.time(count - 1);
        let mut start = self.last;
        'part: for part in 0..256 {
            start = start.saturating_sub(PART as i64);
            count = before(table, before(table, count, start), start);
            self.counts[part] = count.min(255) as u8;
        }
    }

    /// Returns the guess for an instant. It is right if no more than two changes are in the part.
    #[inline(always)]
    pub(crate) fn near(&self, table: &Table<'_>, instant: i64) -> Option<usize> {
        let part = self.last.wrapping_sub(instant).cast_unsigned() / PART;
        if part > 255 {
            return None;
        }
        let count = usize::from(self.counts[part as usize]);
        if count + 1 < table.len() {
            Some(count + table.past(count, instant) + table.past(count + 1, instant))
        } else {
            Some(count)
        }
    }
}
