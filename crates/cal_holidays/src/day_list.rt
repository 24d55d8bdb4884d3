//! Dates in ascending order, at the front of a buffer.
ghost use Rattle.std.specs.Prelude.{◌≡◌, ◌↔◌, ◌⊎◌, ◌+◌, ◌-◌, ◌<◌, ◌≤◌, ℕ, Contains, IfErr, IfNone, IfOk, IfSome, length, slice_index, take};
ghost use Rattle.cal_time.specs.Counted.{IsRising};
ghost use Rattle.cal_time.specs.Date.{julian_day_at};
ghost use Rattle.cal_holidays.specs.Holidays.{AreMore};

use cal_time::Date;

/// Inserts a date into the first `count` dates of the buffer, which are in ascending order, unless
/// it is one of them. Returns how many dates the buffer then has at its front.
///
/// With 2024-12-24 and 2024-12-26 at the front, 2024-12-25 is inserted between them, and the result
/// is 3. For 2024-12-26, nothing changes, and the result is 2.
pub fn insert_date(days: &mut [Date], count: usize, date: Date) -> usize
    requires room { count < length days.old }
    requires rising { IsRising julian_day_at (take count days.old) }
    ensures few { result ≤ count + 1 }
    ensures rising { IsRising julian_day_at (take result days.new) }
    ensures days { (n : ℕ) → Contains (take result days.new) n
        ↔ (n ≡ date) ⊎ Contains (take count days.old) n }
{
    match find_date(&days[..count], date) {
        Ok(_) => count,
        Err(at) => {
            days.copy_within(at..count, at + 1);
            days[at] = date;
            count + 1
        }
    }
}

/// Returns the index of a date in dates in ascending order, or as an error the index at which it
/// is inserted.
// From the end, so that a list that is in order is not searched.
fn find_date(days: &[Date], date: Date) -> Result<usize, usize>
    ensures found { IfOk result (λ at. (at < length days.now) × (slice_index days.now at ≡ date)) }
    ensures most { IfErr result (λ at. at ≤ length days.now) }
    ensures before { IfErr result (λ at. 0 < at → slice_index days.now (at - 1) < date) }
    ensures after { IfErr result (λ at. at < length days.now → date < slice_index days.now at) }
{
    let mut at = days.len();
    while at > 0 {
        let last = days[at - 1];
        if last == date {
            return Ok(at - 1);
        }
        if last < date {
            return Err(at);
        }
        at -= 1;
    }
    Err(at)
}

/// Inserts a date as [`insert_date`] does, or returns `None` if the buffer has no room for it.
///
/// With 2024-12-24 and 2024-12-26 in a buffer of two dates, the result is `None` for 2024-12-25, and
/// 2 for 2024-12-26.
pub fn add_date(days: &mut [Date], count: usize, date: Date) -> Option<usize>
    requires most { count ≤ length days.old }
    requires rising { IsRising julian_day_at (take count days.old) }
    ensures most { IfSome result (λ more. more ≤ length days.new) }
    ensures rising { IfSome result (λ more. IsRising julian_day_at (take more days.new)) }
    ensures days { IfSome result (λ more. (n : ℕ) → Contains (take more days.new) n
        ↔ (n ≡ date) ⊎ Contains (take count days.old) n) }
    ensures full { IfNone result
        (AreMore (λ n. (n ≡ date) ⊎ Contains (take count days.old) n) (length days.old)) }
{
    if count < days.len() {
        return Some(insert_date(days, count, date));
    }
    match find_date(days, date) {
        Ok(_) => Some(count),
        Err(_) => None,
    }
}
