//! Each contract that isn't a plain equation allows only one result: two calls return the same.
ghost use Rattle.std.specs.Prelude.{◌≡◌};

use crate::tests::one_answer::Twice;
use cal_datetime::OffsetDateTime;
use cal_recurrence::CountedZonedSet;
use cal_zone::Zone;
use cal_zone::laws::one_local;

fn contains(set: &mut CountedZonedSet<'_>, moment: OffsetDateTime) -> Twice<bool>
    ensures { result.0 ≡ result.1 }
{
    (set.contains(moment), set.contains(moment))
}

fn next_after(
    set: &mut CountedZonedSet<'_>,
    zone: &Zone<'_>,
    moment: OffsetDateTime,
) -> Twice<Option<OffsetDateTime>>
    ensures { set.old.zone.now ≡ zone.now → result.0 ≡ result.1 }
{
    one_local(zone);
    (set.next_after(moment), set.next_after(moment))
}

fn first_from(
    set: &mut CountedZonedSet<'_>,
    zone: &Zone<'_>,
    moment: OffsetDateTime,
) -> Twice<Option<OffsetDateTime>>
    ensures { set.old.zone.now ≡ zone.now → result.0 ≡ result.1 }
{
    one_local(zone);
    (set.first_from(moment), set.first_from(moment))
}
