//! The version of the library.
ghost use Rattle.std.specs.Prelude.{◌≡◌};

/// Returns the version: a million times its first number, plus a thousand times its second, plus
/// its third. For 0.2.0 it is 2000.
#[unsafe(no_mangle)]
pub extern "C" fn fots_version() -> u32
    ensures { result ≡ 2000 }
{
    2000
}
