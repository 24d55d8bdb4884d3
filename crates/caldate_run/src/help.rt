//! The texts of `--help` and `--version`.

/// The text of `--version`.
pub const VERSION: &[u8] = b"caldate 0.2.0\n";

/// The text of `--help`.
pub const HELP: &[u8] = b"Usage: caldate [OPTION].. COMMAND [FILE ..]
       caldate list from A to B [by STEP [at ZONE]]

Answers each line of the files, or of standard input, with one line.

  echo 2024-02-29 | caldate to week                      2024-W09-4
  echo 2024-01-31 | caldate add 1 month                  2024-02-29
  echo 2024-03-01 | caldate add 3 workdays               2024-03-06
  echo 1980-06-01 | caldate until 2024-02-29 in years    43
  echo 1980-06-01 | caldate until 2024-02-29 in P        P43Y8M28D
  echo 29.02.2024 | caldate --read dmy to iso            2024-02-29
  echo a,2024-02-29 | caldate --csv --field 2 add 7      a,2024-03-07
  echo 'due 2024-02-29, paid' | caldate --scan to week   due 2024-W09-4, paid
  echo 2024-07-01T12:00:00Z | caldate at Asia/Tokyo to %T   21:00:00
  echo 1709164800500 | caldate --read unix-ms to iso     2024-02-29T00:00:00.5Z
  echo 2024-02-29T13:08:00Z | caldate round 15 minutes   2024-02-29T13:15:00Z
  echo 2024-02-29 | caldate to '%-d.%-m.%Y'              29.2.2024
  caldate --date 2024-02-29 to weekday                   Thursday
  caldate list from 2024-01-31 to 2024-12-31 by P1M | tail -n 1   2024-12-31

A line is a date, such as 2024-02-29, 2024-060, 2024-W09-4 or J2460370, or a
moment, such as 2024-02-29T23:59:59.25+01:00 or @1709164800.5. DATE, A and B are
such a text, or today, yesterday, tomorrow or now.

Commands:
  to FORM               the same as calendar, ordinal, week, julian, weekday,
                        short-weekday, month, quarter, basic, iso, rfc3339,
                        unix, unix-ms, unix-us, unix-ns, clf, rfc2822, syslog,
                        or in a format of strftime, such as %A, %-d %B %Y
  add N [UNIT]          N days, weeks, months, years, workdays, hours, minutes
                        or seconds later
  add PERIOD            a period later, such as P1M3DT4H
  next WEEKDAY [N]      the N-th such day after it
  last WEEKDAY [N]      the N-th such day before it
  on-or-after WEEKDAY   the first such day on or after it
  on-or-before WEEKDAY  the last such day on or before it
  start PERIOD          the first day of its week, month, quarter or year
  end PERIOD            the last day of its week, month, quarter or year
  start TIME            its time of day rounded down to day, hour, minute or
                        N minutes
  round N UNIT          its time of day rounded to the nearest N days, hours,
                        minutes or seconds
  until DATE            the days until that date, or the duration
  until DATE in UNIT    the whole units; or a period (in P) or a duration (in PT
                        or in HH:MM:SS)
  since DATE ..         the same from that date or moment until the line
  until field N ..      with --field: the same until the date or moment in
                        another field of the line
  at PLACE              the moment at an offset, such as +01:00, or by the
                        clocks of a zone, such as Europe/Berlin
  at PLACE to FORM      the same in a form or format
  at PLACE MOVE         the moment moved by those clocks; MOVE is add, next,
                        last, on-or-after, on-or-before, start, end or round
  at PLACE until ..     whole units or a period by those clocks; also since
  keep from A to B      the line itself if it is from A to B, else nothing; also
                        keep after A and keep before B
  list from A to B      without input: all dates from A to B, or with by N UNIT
                        or by PERIOD in such steps, or with by RULE those of a
                        recurrence, such as FREQ=MONTHLY;BYDAY=-1FR, or with by
                        FILE.ics those of a calendar's events; with at ZONE
                        moments by its clocks
  --date DATE ..        answers for this date or moment, without input
  --help, -h, help      this page
  --version             the version

Options, before or after a command:
  --field N             reads the N-th field of each line, and replaces it by
                        its answer; fields end at a tab; N-M joins fields, NAME
                        is a field of the header; up to four fields
  --csv                 with --field: records of RFC 4180, whose fields end at a
                        comma
  --separator C         with --field: fields end at the byte C
  --header              writes the first line unchanged
  --append NAME         with one --field: writes the answer as a new last field,
                        and with --header its NAME
  --scan                answers each date or moment in a line in place
  --read FORM           reads lines in this form: basic, dmy, mdy, unix,
                        unix-ms, unix-us, unix-ns, clf, rfc2822, syslog, iso,
                        local or a format, such as %d.%m.%Y; of up to four, the
                        first that fits wins
  --assume OFFSET       the offset of local, or of iso or a format without one
  --zone ZONE           the same, by the clocks of a zone, which moves go by too
  --ambiguous POLICY    with --zone or at ZONE MOVE: a time that clocks skip or
                        show twice is compatible (the default), earlier, later,
                        or reject for none
  --assume-year YEAR    the year of syslog, or of a format without one; or near
                        DATE, for the year of the date that is nearest to it
  --lenient             with formats of --read: reads numbers with or without
                        zeros, names in any case or by three letters, and any
                        white space for white space
  --pivot YEAR          with --lenient: the first of the 100 years of %y
  --language LANGUAGE   formats have the names of ar, de, en, es, fr, it, ja, pl,
                        pt, ru, tr or zh
  --holidays FILE       with workdays: the dates in that file aren't workdays,
                        nor those of its rules, such as 11-4TH, or those of a
                        calendar: target, us-federal, nyse, england-and-wales,
                        or de-bw and so on
  --invalid MODE        what is written for a line without an answer: keep for
                        the line (the default with --field and --scan), answer
                        for the reason (the default without them), drop for
                        nothing, or stop to end there
  --skip K              writes the first K lines unchanged

Names of weekdays, units and periods can have any case, or only their first
three letters: fri, min. A unit can be singular: day. A file - is standard
input; -- can come before the files. Zones are the files of the folder in the
variable TZDIR, or of /usr/share/zoneinfo.

The status is 0, 1 if a line has no answer, or 2 if the arguments are invalid or
the input or the output fails.
";
