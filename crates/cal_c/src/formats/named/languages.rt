//! The names of twelve languages.
ghost use Rattle.std.specs.Prelude.{◌≡◌, if◌then◌else◌};
ghost use Rattle.cal_names.specs.Languages.{is_one_of, language_codes};
ghost use Rattle.cal_c.specs.NamedFormats.{AreEmpty, AreNames};
ghost use Rattle.cal_c.specs.declared.status.TheConstants.{OK, UNKNOWN_LANGUAGE};

use super::names_parts::{NO_NAMES, NamesParts};
use crate::status::{OK, UNKNOWN_LANGUAGE};
use cal_names::names_of;

/// Writes the names of a language by its code of ISO 639-1: `ar`, `de`, `en`, `es`, `fr`, `it`,
/// `ja`, `pl`, `pt`, `ru`, `tr` or `zh`. They are from a locale of glibc. For another code writes
/// empty names and returns `UNKNOWN_LANGUAGE`. The second month of `fr` is `février`.
#[unsafe(no_mangle)]
pub extern "C" fn fots_names_of_language(code: &[u8], names: &mut NamesParts<'static>) -> i32
    ensures status { result ≡ (if is_one_of code.now language_codes then OK else UNKNOWN_LANGUAGE) }
    ensures names { AreNames names.new }
    ensures unknown { result ≡ UNKNOWN_LANGUAGE → AreEmpty names.new }
{
    match names_of(code) {
        Some(its) => {
            names.set(its);
            OK
        }
        None => {
            names.set(&NO_NAMES);
            UNKNOWN_LANGUAGE
        }
    }
}
