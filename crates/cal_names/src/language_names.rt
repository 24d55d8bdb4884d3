//! The names of a language by its code.
ghost use Rattle.std.specs.Prelude.{◌≡◌, is_some, IfSome};
ghost use Rattle.cal_names.specs.Languages.{AreShort, is_one_of, language_codes};

use crate::languages;
use crate::names::Names;

static ARABIC: Names<'static> = languages::ARABIC;

static GERMAN: Names<'static> = languages::GERMAN;

static ENGLISH: Names<'static> = languages::ENGLISH;

static SPANISH: Names<'static> = languages::SPANISH;

static FRENCH: Names<'static> = languages::FRENCH;

static ITALIAN: Names<'static> = languages::ITALIAN;

static JAPANESE: Names<'static> = languages::JAPANESE;

static POLISH: Names<'static> = languages::POLISH;

static PORTUGUESE: Names<'static> = languages::PORTUGUESE;

static RUSSIAN: Names<'static> = languages::RUSSIAN;

static TURKISH: Names<'static> = languages::TURKISH;

static CHINESE: Names<'static> = languages::CHINESE;

/// Returns the names of a language by its code of ISO 639-1: `ar`, `de`, `en`, `es`, `fr`, `it`, `ja`,
/// `pl`, `pt`, `ru`, `tr` or `zh`. Returns `None` for another code. The second month of `fr` is
/// `février`.
pub fn names_of(code: &[u8]) -> Option<&'static Names<'static>>
    ensures known { is_some result ≡ is_one_of code.now language_codes }
    ensures short { IfSome result (λ names. AreShort names.now) }
{
    let names = if code == b"ar".as_slice() {
        &ARABIC
    } else if code == b"de".as_slice() {
        &GERMAN
    } else if code == b"en".as_slice() {
        &ENGLISH
    } else if code == b"es".as_slice() {
        &SPANISH
    } else if code == b"fr".as_slice() {
        &FRENCH
    } else if code == b"it".as_slice() {
        &ITALIAN
    } else if code == b"ja".as_slice() {
        &JAPANESE
    } else if code == b"pl".as_slice() {
        &POLISH
    } else if code == b"pt".as_slice() {
        &PORTUGUESE
    } else if code == b"ru".as_slice() {
        &RUSSIAN
    } else if code == b"tr".as_slice() {
        &TURKISH
    } else if code == b"zh".as_slice() {
        &CHINESE
    } else {
        return None;
    };
    Some(names)
}
