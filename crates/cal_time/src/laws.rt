//! Laws that no clause of a call states.
ghost use Rattle.std.specs.Prelude.{◌≡◌, ℕ};
ghost use Rattle.cal_date.specs.Date.{IsDate};
ghost use Rattle.cal_date.specs.DateText.{text};

/// States that no two days of the range print alike.
#[tactic(auto, using(crate::specs::Laws::distinct_texts))]
pub(crate) fn texts_differ()
    ensures { (m n : ℕ) → IsDate m → IsDate n → text m ≡ text n → m ≡ n }
{}
