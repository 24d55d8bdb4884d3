//! Laws: the clauses of the calls for zones allow only one result.
ghost use Rattle.std.specs.Prelude.{◌≡◌, ℕ, ℤ};
ghost use Rattle.cal_schedule.specs.Period.{Parts};
ghost use Rattle.cal_c.specs.Rounding.{IsZonedRoundedTo};
ghost use Rattle.cal_c.specs.ZoneColumns.{IsInstantByPolicy};
ghost use Rattle.cal_c.specs.Zoned.{IsDurationEarlier, IsDurationLater, IsEndOfUnit, IsFromLocal, IsLaterSeconds, IsLengthOfDate, IsMovedToDate, IsNthPeriodResult, IsPeriodLaterResult, IsStartOfDate, IsStartOfUnit, IsStartSeconds, IsUntilInZoneResult, IsWithLocal, IsZonedAt};
ghost use Rattle.cal_c.specs.Zones.{zone_in, IsChecked, IsMomentByPolicy, IsNextResult, IsPreviousResult, IsResolved};
ghost use Rattle.cal_c.specs.declared.results.Duration.{Duration};
ghost use Rattle.cal_c.specs.declared.results.DurationResult.{DurationResult};
ghost use Rattle.cal_c.specs.declared.results.Int64Result.{Int64Result};
ghost use Rattle.cal_c.specs.declared.results.Moment.{Moment};
ghost use Rattle.cal_c.specs.declared.results.MomentResult.{MomentResult};
ghost use Rattle.cal_c.specs.declared.schedule.pair_periods.ExactPeriodResult.{ExactPeriodResult};
ghost use Rattle.cal_c.specs.declared.schedule.periods.PeriodParts.{PeriodParts};
ghost use Rattle.cal_zone.specs.declared.policy.Policy.{Policy};
ghost use Rattle.cal_c.specs.declared.zones.results.LocalResult.{LocalResult};

use crate::zones::checked_zone::CheckedZone;

/// States that a struct of a checked zone has one result for each reading and each Unix time.
pub fn one_result(zone: &CheckedZone<'_>)
    requires { IsChecked zone.now }
    ensures local { (reading : ℤ) (r s : LocalResult) → IsResolved (zone_in zone.now) reading r
        → IsResolved (zone_in zone.now) reading s → r ≡ s }
    ensures moment { (reading : ℤ) (p : Policy) (r s : MomentResult)
        → IsMomentByPolicy (zone_in zone.now) reading p r
        → IsMomentByPolicy (zone_in zone.now) reading p s → r ≡ s }
    ensures instant { (reading : ℤ) (p : Policy) (r s : Int64Result)
        → IsInstantByPolicy (zone_in zone.now) reading p r
        → IsInstantByPolicy (zone_in zone.now) reading p s → r ≡ s }
    ensures next { (seconds : ℤ) (r s : Int64Result) → IsNextResult (zone_in zone.now) seconds r
        → IsNextResult (zone_in zone.now) seconds s → r ≡ s }
    ensures previous { (seconds : ℤ) (r s : Int64Result)
        → IsPreviousResult (zone_in zone.now) seconds r
        → IsPreviousResult (zone_in zone.now) seconds s → r ≡ s }
{}

/// States that a struct of a checked zone has one result for each call that moves a date-time in it.
pub fn one_zoned_result(zone: &CheckedZone<'_>)
    requires { IsChecked zone.now }
    ensures at { (time : Duration) (r s : MomentResult) → IsZonedAt (zone_in zone.now) time r
        → IsZonedAt (zone_in zone.now) time s → r ≡ s }
    ensures from_local { (date : ℤ) (time policy : ℕ) (r s : MomentResult)
        → IsFromLocal (zone_in zone.now) date time policy r
        → IsFromLocal (zone_in zone.now) date time policy s → r ≡ s }
    ensures with_local { (m : Moment) (date : ℤ) (time policy : ℕ) (r s : MomentResult)
        → IsWithLocal (zone_in zone.now) m date time policy r
        → IsWithLocal (zone_in zone.now) m date time policy s → r ≡ s }
    ensures moved_to { (m : Moment) (date : ℤ) (policy : ℕ) (r s : MomentResult)
        → IsMovedToDate (zone_in zone.now) m date policy r
        → IsMovedToDate (zone_in zone.now) m date policy s → r ≡ s }
    ensures duration_later { (m : Moment) (d : Duration) (r s : MomentResult)
        → IsDurationLater (zone_in zone.now) m d r
        → IsDurationLater (zone_in zone.now) m d s → r ≡ s }
    ensures duration_earlier { (m : Moment) (d : Duration) (r s : MomentResult)
        → IsDurationEarlier (zone_in zone.now) m d r
        → IsDurationEarlier (zone_in zone.now) m d s → r ≡ s }
    ensures period_later { (m : Moment) (period : PeriodParts) (policy : ℕ) (r s : MomentResult)
        → IsPeriodLaterResult (zone_in zone.now) m period policy r
        → IsPeriodLaterResult (zone_in zone.now) m period policy s → r ≡ s }
    ensures nth_period { (m : Moment) (period : PeriodParts) (n : ℤ) (policy : ℕ) (r s : MomentResult)
        → IsNthPeriodResult (zone_in zone.now) m period n policy r
        → IsNthPeriodResult (zone_in zone.now) m period n policy s → r ≡ s }
    ensures period_until { (m other : Moment) (unit policy : ℕ) (r s : ExactPeriodResult)
        → IsUntilInZoneResult (zone_in zone.now) m other unit policy r
        → IsUntilInZoneResult (zone_in zone.now) m other unit policy s → r ≡ s }
    ensures start_of { (m : Moment) (unit : ℕ) (r s : MomentResult)
        → IsStartOfUnit (zone_in zone.now) m unit r
        → IsStartOfUnit (zone_in zone.now) m unit s → r ≡ s }
    ensures end_of { (m : Moment) (unit : ℕ) (r s : MomentResult)
        → IsEndOfUnit (zone_in zone.now) m unit r
        → IsEndOfUnit (zone_in zone.now) m unit s → r ≡ s }
    ensures rounded { (m : Moment) (unit : Duration) (mode : ℕ) (r s : MomentResult)
        → IsZonedRoundedTo (zone_in zone.now) m unit mode r
        → IsZonedRoundedTo (zone_in zone.now) m unit mode s → r ≡ s }
{}

/// States that a struct of a checked zone has one start and one length of each day, and one result
/// for each row of a column of Unix times.
pub fn one_day_result(zone: &CheckedZone<'_>)
    requires { IsChecked zone.now }
    ensures start { (date : ℤ) (r s : MomentResult) → IsStartOfDate (zone_in zone.now) date r
        → IsStartOfDate (zone_in zone.now) date s → r ≡ s }
    ensures length { (date : ℤ) (r s : DurationResult) → IsLengthOfDate (zone_in zone.now) date r
        → IsLengthOfDate (zone_in zone.now) date s → r ≡ s }
    ensures later { (seconds : ℤ) (period : Parts) (p : Policy) (r s : Int64Result)
        → IsLaterSeconds (zone_in zone.now) seconds period p r
        → IsLaterSeconds (zone_in zone.now) seconds period p s → r ≡ s }
    ensures start_seconds { (seconds : ℤ) (r s : Int64Result)
        → IsStartSeconds (zone_in zone.now) seconds r
        → IsStartSeconds (zone_in zone.now) seconds s → r ≡ s }
{}
