//! Laws: the clauses of the calls that round allow only one result.
ghost use Rattle.std.specs.Prelude.{◌≡◌, ℕ, ℤ};
ghost use Rattle.cal_c.specs.Rounding.{IsDurationRoundedTo, IsMomentRoundedTo, IsPairRoundedTo, IsTimeRoundedTo};
ghost use Rattle.cal_c.specs.declared.results.Duration.{Duration};
ghost use Rattle.cal_c.specs.declared.results.DurationResult.{DurationResult};
ghost use Rattle.cal_c.specs.declared.results.Moment.{Moment};
ghost use Rattle.cal_c.specs.declared.results.MomentResult.{MomentResult};
ghost use Rattle.cal_c.specs.declared.results.PairResult.{PairResult};
ghost use Rattle.cal_c.specs.declared.results.TimeResult.{TimeResult};

/// States that each call that rounds has one result. In a zone that is `one_zoned_result`.
pub fn one_rounded_result()
    ensures time { (time : ℕ) (unit : Duration) (mode : ℕ) (r s : TimeResult)
        → IsTimeRoundedTo time unit mode r → IsTimeRoundedTo time unit mode s → r ≡ s }
    ensures pair { (date : ℤ) (time : ℕ) (unit : Duration) (mode : ℕ) (r s : PairResult)
        → IsPairRoundedTo date time unit mode r → IsPairRoundedTo date time unit mode s → r ≡ s }
    ensures moment { (moment : Moment) (unit : Duration) (mode : ℕ) (r s : MomentResult)
        → IsMomentRoundedTo moment unit mode r → IsMomentRoundedTo moment unit mode s → r ≡ s }
    ensures duration { (duration unit : Duration) (mode : ℕ) (r s : DurationResult)
        → IsDurationRoundedTo duration unit mode r
        → IsDurationRoundedTo duration unit mode s → r ≡ s }
{}
