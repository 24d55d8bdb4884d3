//! The holidays of known calendars, each as a list of rules.
ghost use Rattle.std.specs.Prelude.{◌≡◌, map, option_map, slice_get};
ghost use Rattle.cal_holidays.specs.Calendars.{calendars};

use crate::holiday_rule::HolidayRule;

mod england_and_wales;
mod germany;
mod nyse;
mod target;
mod us_federal;

/// The known calendars, each with a name and the rules of its holidays. The documentation of each
/// module of `calendars` has its source and the years for which it holds. Before the first year of
/// a calendar its rules have no holidays.
///
/// `target` has the closing days of the payment system of the euro, `us-federal` the public
/// holidays of the federal offices of the United States, `nyse` the days on which the New York
/// Stock Exchange is closed, and `england-and-wales` the bank holidays. The others are the public
/// holidays of the states of Germany, from `de-bw` to `de-th`.
pub const CALENDARS: [(&str, &[HolidayRule]); 20] = [
    ("target", target::RULES),
    ("us-federal", us_federal::RULES),
    ("nyse", nyse::RULES),
    ("england-and-wales", england_and_wales::RULES),
    ("de-bw", germany::BADEN_WUERTTEMBERG),
    ("de-by", germany::BAVARIA),
    ("de-be", germany::BERLIN),
    ("de-bb", germany::BRANDENBURG),
    ("de-hb", germany::BREMEN),
    ("de-hh", germany::HAMBURG),
    ("de-he", germany::HESSE),
    ("de-mv", germany::MECKLENBURG_WESTERN_POMERANIA),
    ("de-ni", germany::LOWER_SAXONY),
    ("de-nw", germany::NORTH_RHINE_WESTPHALIA),
    ("de-rp", germany::RHINELAND_PALATINATE),
    ("de-sl", germany::SAARLAND),
    ("de-sn", germany::SAXONY),
    ("de-st", germany::SAXONY_ANHALT),
    ("de-sh", germany::SCHLESWIG_HOLSTEIN),
    ("de-th", germany::THURINGIA),
];

/// Returns the rules of the calendar at an index of [`CALENDARS`], or `None` if there is none. The
/// first one is `target`.
#[tactic(auto, unfolding(crate::specs::Calendars::calendars))]
pub fn calendar_rules(index: usize) -> Option<&'static [HolidayRule]>
    ensures { option_map (λ rules. rules.now) result ≡ slice_get calendars index }
{
    rules_at(&CALENDARS, index)
}

/// Returns the rules of the row at an index, or `None` if there is none.
fn rules_at(
    table: &'static [(&'static str, &'static [HolidayRule])],
    index: usize,
) -> Option<&'static [HolidayRule]>
    ensures { option_map (λ rules. rules.now) result
        ≡ slice_get (map (λ row. row.1.now) table.now) index }
{
    if index < table.len() {
        Some(table[index].1)
    } else {
        None
    }
}
