//! Callers of the kernel that know only a condition.
ghost use Rattle.std.specs.Prelude.{ℕ, ◌-ℤ◌};
ghost use Rattle.cal_date.specs.ClosedForms.{HasKernel};
ghost use Rattle.cal_date.specs.Date.{first_julian_day, IsDate};
ghost use Rattle.cal_date.specs.Arithmetic.{IsDateNumber};

use cal_date::{JulianKernel, date_of_kernel, julian_kernel};

pub fn ordinal_date(kernel: JulianKernel) -> (i32, u16)
    requires { (n : ℕ) × IsDate n × HasKernel kernel n }
{
    date_of_kernel(kernel).to_ordinal_date()
}

pub fn dated(julian_day: i32) -> (JulianKernel, (i32, u16))
    requires { IsDateNumber (julian_day -ℤ first_julian_day) }
{
    let kernel = julian_kernel(julian_day);
    (kernel, ordinal_date(kernel))
}

/// Returns the day of the kernel, counted from 1 January -2379600: `julian` without the days that
/// it counts for each century.
pub fn shifted_day(julian_day: i32) -> u32
    requires { IsDateNumber (julian_day -ℤ first_julian_day) }
{
    let kernel = julian_kernel(julian_day);
    let days = kernel.julian.wrapping_sub(kernel.century);
    days.wrapping_add(kernel.century / 4)
}
