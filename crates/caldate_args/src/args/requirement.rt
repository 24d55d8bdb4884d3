//! Requirements of the arguments.
ghost use Rattle.std.specs.Prelude.{◌≤◌, length};

/// A requirement that no single word meets.
#[derive(Clone, Copy)]
pub enum Requirement {
    /// Any command, because nothing is given.
    Something,
    /// Arguments of at most 4096 bytes.
    Short,
    /// No `--field`, which `--scan` excludes.
    ScanField,
    /// No `--csv`, which `--scan` excludes.
    ScanCsv,
    /// No `--append`, which `--scan` excludes.
    ScanAppend,
    /// No `--separator`, which `--scan` excludes.
    ScanSeparator,
    /// `--field`, which `--separator` requires.
    Field,
    /// `--field`, which `--csv` requires.
    CsvField,
    /// `--field`, which `--append` requires.
    AppendField,
    /// A single `--field`, which `--append` requires.
    AppendFields,
    /// Fields that overlap.
    Overlap,
    /// A request that isn't `keep`, which `--append` requires.
    AppendKeep,
    /// `--field`, which `field N` after `until` or `since` requires.
    OtherField,
    /// A separator other than a quote, which `--csv` requires.
    CsvSeparator,
    /// `--header`, which the name of a field requires.
    Header,
    /// `--assume`, which `--read local` requires.
    Assume,
    /// `--read local`, which `--assume` requires.
    Local,
    /// `--assume-year`, which a format without a year requires.
    AssumeYear,
    /// A format without a year, which `--assume-year` requires.
    Yearless,
    /// `--pivot`, or `--assume-year`, which a format with `%y` and without a century requires.
    Century,
    /// A format, which `--lenient` requires.
    LenientFormat,
    /// `--lenient`, which `--pivot` requires.
    Lenient,
    /// A format whose only year is `%y`, which `--pivot` requires.
    ShortYear,
    /// A format, which `--language` requires.
    LanguageFormat,
    /// Only one of `--language` and `--lenient`.
    LanguageOrLenient,
    /// `--zone`, or `at ZONE` and a move, which `--ambiguous` requires.
    ZoneOption,
    /// Only one of `--assume` and `--zone`.
    OffsetOrZone,
    /// Only forms without an offset, which `--zone` requires.
    LocalOnly,
    /// A number of working days, which `--holidays` requires.
    WorkdaysOnly,
    /// Two moments, which the zone of a list requires.
    TwoMoments,
}

impl Requirement {
    /// Returns the message if the requirement isn't met.
    pub fn message(self) -> &'static str
        ensures { length result.now ≤ 60 }
    {
        match self {
            Requirement::Something => "missing command; try 'caldate --help'",
            Requirement::Short => "arguments too long; expected at most 4096 bytes",
            Requirement::ScanField => "--scan can't be used with --field",
            Requirement::ScanCsv => "--scan can't be used with --csv",
            Requirement::ScanAppend => "--scan can't be used with --append",
            Requirement::ScanSeparator => "--scan can't be used with --separator",
            Requirement::Field => "--separator requires --field",
            Requirement::CsvField => "--csv requires --field",
            Requirement::AppendField => "--append requires --field",
            Requirement::AppendFields => "--append requires a single --field",
            Requirement::Overlap => "fields of --field can't overlap",
            Requirement::AppendKeep => "--append can't be used with keep",
            Requirement::OtherField => "another field requires --field",
            Requirement::CsvSeparator => "--csv can't use a quote as the separator",
            Requirement::Header => "a field name requires --header",
            Requirement::Assume => "a form without an offset requires --assume or --zone",
            Requirement::Local => "--assume requires --read of a form without an offset",
            Requirement::AssumeYear => "a format without a year requires --assume-year",
            Requirement::Yearless => "--assume-year requires --read of a format without a year",
            Requirement::Century => "a format with %y requires --lenient --pivot or --assume-year",
            Requirement::LenientFormat => "--lenient requires --read of a format",
            Requirement::Lenient => "--pivot requires --lenient",
            Requirement::ShortYear => "--pivot requires --read of a format whose year is %y",
            Requirement::LanguageFormat => "--language requires a format such as %-d %B %Y",
            Requirement::LanguageOrLenient => "--language can't be used with --lenient",
            Requirement::ZoneOption => "--ambiguous requires --zone, or at ZONE and a move",
            Requirement::OffsetOrZone => "--assume can't be used with --zone",
            Requirement::LocalOnly => "--zone requires --read of forms without an offset only",
            Requirement::WorkdaysOnly => "--holidays requires the unit workdays",
            Requirement::TwoMoments => "at ZONE requires two moments",
        }
    }
}
