//! Steps round a cycle, there and back.
ghost use Rattle.std.specs.Prelude.{◌≡◌};

use cal_time::{Month, Weekday};

pub fn month_and_back(month: Month, n: u8) -> Month
    ensures { result ≡ month }
{
    month.nth_next(n).nth_prev(n)
}

pub fn weekday_and_back(weekday: Weekday, n: u8) -> Weekday
    ensures { result ≡ weekday }
{
    weekday.nth_next(n).nth_prev(n)
}
