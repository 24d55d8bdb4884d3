//! Laws: the clauses of the calls for intervals allow only one result.
ghost use Rattle.std.specs.Prelude.{◌≡◌, ℕ, Option};
ghost use Rattle.cal_interval.specs.declared.date.interval.DateInterval.{DateInterval};
ghost use Rattle.cal_interval.specs.declared.plain.interval.DateTimeInterval.{DateTimeInterval};
ghost use Rattle.cal_c.specs.Intervals.{IsPairRangeResult, IsRangeResult, IsRepeatedDatesResult, IsRepeatedPairsResult};
ghost use Rattle.cal_c.specs.declared.texts.intervals.ranges.ParseDateRangeResult.{ParseDateRangeResult};
ghost use Rattle.cal_c.specs.declared.texts.intervals.ranges.ParsePairRangeResult.{ParsePairRangeResult};
ghost use Rattle.cal_c.specs.declared.texts.intervals.repeated_pairs.ParseRepeatedPairsResult.{ParseRepeatedPairsResult};
ghost use Rattle.cal_c.specs.declared.texts.intervals.repeats.ParseRepeatedDatesResult.{ParseRepeatedDatesResult};

use cal_interval::date::DateInterval;
use cal_interval::laws::{one_date_time_range, one_range};
use cal_interval::plain::DateTimeInterval;

/// States that an interval of dates has one result.
pub fn one_range_result(interval: DateInterval)
    ensures { (r s : ParseDateRangeResult) → IsRangeResult interval r → IsRangeResult interval s
        → r ≡ s }
{
    one_range(interval);
}

/// States that an interval of dates and times has one result.
pub fn one_pair_range_result(interval: DateTimeInterval)
    ensures { (r s : ParsePairRangeResult) → IsPairRangeResult interval r
        → IsPairRangeResult interval s → r ≡ s }
{
    one_date_time_range(interval);
}

/// States that a repeated interval of dates has one result.
pub fn one_repeated_result()
    ensures { (v : Option ℕ × DateInterval) (r s : ParseRepeatedDatesResult)
        → IsRepeatedDatesResult v r → IsRepeatedDatesResult v s → r ≡ s }
{}

/// States that a repeated interval of dates and times has one result.
pub fn one_repeated_pairs_result()
    ensures { (v : Option ℕ × DateTimeInterval) (r s : ParseRepeatedPairsResult)
        → IsRepeatedPairsResult v r → IsRepeatedPairsResult v s → r ≡ s }
{}
