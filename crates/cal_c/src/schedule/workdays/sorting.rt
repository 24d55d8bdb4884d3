//! Sorting dates, as tables of holidays have them.
ghost use Rattle.std.specs.Prelude.{◌<◌, ◌≤◌, length};
ghost use Rattle.std.specs.Bool.{OnFalse, OnTrue};
ghost use Rattle.std.specs.Ordering.{int_cmp};
ghost use Rattle.std.specs.List.Sorted.{IsSorted};
ghost use Rattle.cal_c.specs.SortedDates.{AreSortedOnce, IsAgain, IsGreater};

/// Sorts dates, moves each of them to the front once, and returns how many these are. The rest of
/// the array isn't specified. It also sorts numbers that aren't dates. 2460670, 2460311 and 2460670
/// become 2460311 and 2460670, and 2 is returned.
#[unsafe(no_mangle)]
pub extern "C" fn fots_dates_sort(dates: &mut [i32]) -> usize
    ensures { AreSortedOnce dates.old dates.new result }
{
    dates.sort_unstable();
    move_distinct(dates)
}

/// Moves each number of a sorted array to the front once, and returns how many these are.
fn move_distinct(numbers: &mut [i32]) -> usize
    requires { IsSorted int_cmp numbers.old }
    ensures { AreSortedOnce numbers.old numbers.new result }
{
    let mut kept = 0;
    for index in 0..numbers.len() {
        if is_greater(numbers, kept, index) {
            numbers[kept] = numbers[index];
            kept += 1;
        }
    }
    kept
}

/// Returns `true` if the number at an index is the first one, or greater than the last one that is kept.
fn is_greater(numbers: &[i32], kept: usize, index: usize) -> bool
    requires { (kept ≤ index) × (index < length numbers.now) }
    ensures greater { OnTrue result (IsGreater numbers.now kept index) }
    ensures repeated { OnFalse result (IsAgain numbers.now kept index) }
{
    kept == 0 || numbers[kept - 1] < numbers[index]
}
