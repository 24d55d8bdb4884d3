//! Laws: the clauses of the calls for events speak of one set.
ghost use Rattle.std.specs.Prelude.{◌≡◌, ℕ, List, Result};
ghost use Rattle.cal_ics.specs.EventSet.{IsEventSet};
ghost use Rattle.cal_recurrence.specs.declared.set_fault.ParseSetError.{ParseSetError};
ghost use Rattle.cal_recurrence.specs.declared.set_parts.SetParts.{SetParts};

/// States that the lines of an event have one set, or one first error.
pub fn one_event_set()
    ensures { (lines : List ℕ) (r s : Result SetParts ParseSetError)
        → IsEventSet lines r → IsEventSet lines s → r ≡ s }
{}
