//! Laws of the tables of Easter, and its closed form.
ghost use Rattle.std.specs.Prelude.{◌≡◌, ◌+◌, ℕ, ℤ, pos};
ghost use Rattle.cal_time.specs.Date.{IsDate, IsYear, HasCalendarDate};
ghost use Rattle.cal_holidays.specs.ClosedForm.{day_in_march};
ghost use Rattle.cal_holidays.specs.Easter.{IsEaster};
ghost use Rattle.cal_holidays.specs.Epacts.{first_epact, full_moon, table_year};

/// Proves that the golden number 1 has the epact 1 in the centuries 15 and 16, and 0 in the century
/// 17, as in the tables of 1582.
pub fn first_epacts()
    ensures { (first_epact 15 ≡ 1) × (first_epact 16 ≡ 1) × (first_epact 17 ≡ 0) }
{}

/// Proves that the paschal full moons repeat after 5,700,000 years.
pub fn moons_repeat()
    ensures { (y : ℕ) → full_moon (y + 5_700_000) ≡ full_moon y }
{}

/// Proves that the closed form gives Easter of each year, which it takes 5,700,000 years later.
pub fn closed_form()
    ensures { (y : ℤ) (m n : ℕ) → IsYear y → IsDate m → HasCalendarDate y 3 1 m → IsEaster y n
        → n + 1 ≡ m + day_in_march (table_year y) }
{}

/// Proves that the closed form gives Easter of each positive year as it is.
pub fn closed_form_of_positive_year()
    ensures { (y m n : ℕ) → IsYear (pos y) → IsDate m → HasCalendarDate (pos y) 3 1 m
        → IsEaster (pos y) n → n + 1 ≡ m + day_in_march y }
{}
