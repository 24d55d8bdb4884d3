//! The number of days of a recurrence.
ghost use Rattle.std.specs.Prelude.{◌≡◌, ◌↔◌, ◌+◌, IfSome, IsNone};

use cal_recurrence::RuleCount;
use std::io;

/// Returns the number of days after the first one, or `None` if that is the only day.
fn after_first(count: RuleCount) -> Option<RuleCount>
    ensures value { IfSome result (λ rest. rest + 1 ≡ count) }
    ensures none { IsNone result ↔ (count ≡ 1) }
{
    RuleCount::new(count.get() - 1)
}

pub fn show(rt: &impl Print) -> io::Result<()> {
    let (Some(three), Some(one)) = (RuleCount::new(3), RuleCount::new(1)) else {
        return Ok(());
    };
    println!(rt; "{:?} {:?}", after_first(three), after_first(one))
}
