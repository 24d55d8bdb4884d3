//! A law: a reading has one description.
ghost use Rattle.std.specs.Prelude.{◌≡◌, ℤ};
ghost use Rattle.cal_zone.specs.Local.{IsLocalOf};
ghost use Rattle.cal_zone.specs.Timeline.{InOrder};
ghost use Rattle.cal_zone.specs.declared.local.Local.{Local};

use crate::Zone;

/// Proves that what [`Zone::resolve`] returns is the only description of a reading.
pub fn one_local(zone: &Zone<'_>)
    ensures { (reading : ℤ) (a b : Local) → IsLocalOf zone.now reading a
        → IsLocalOf zone.now reading b → a ≡ b }
{
    let _ = &zone.unchecked;
}

/// Proves that the changes of a zone are in order.
pub fn in_order(zone: &Zone<'_>)
    ensures { InOrder zone.now }
{
    let _ = &zone.unchecked;
}
