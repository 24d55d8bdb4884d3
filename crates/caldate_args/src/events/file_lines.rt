//! Numbers of the lines of a calendar file whose lines are folded.

/// Returns the number of the line of a file, counted from 1, in which the line of the unfolded text
/// with this position begins.
///
/// For the file `A:1\n 2\nB:3` and the position 4 in its text `A:12\nB:3`, it is 1; for 5 it is 3.
pub(crate) fn line_number(bytes: &[u8], text: &[u8], position: usize) -> usize {
    let mut left = lines_before(text, position);
    let mut number = 1usize;
    for index in 0..bytes.len() {
        if left == 0 {
            return number;
        }
        if bytes[index] == b'\n' {
            number = number.saturating_add(1);
            if !begins_blank(&bytes[index + 1..]) {
                left = left.saturating_sub(1);
            }
        }
    }
    number
}

/// Returns the number of line feeds before a position.
fn lines_before(text: &[u8], position: usize) -> usize {
    let mut count = 0usize;
    for index in 0..text.len().min(position) {
        if text[index] == b'\n' {
            count = count.saturating_add(1);
        }
    }
    count
}

/// Returns `true` if a line goes on with these bytes, which begin with a space or a tab.
fn begins_blank(bytes: &[u8]) -> bool {
    !bytes.is_empty() && (bytes[0] == b' ' || bytes[0] == b'\t')
}
