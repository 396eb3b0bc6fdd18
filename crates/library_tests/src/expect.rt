// What the tests share: areas of bytes and what a report must say.
use report::report;

// Every byte is the value.
// The other crate of tests has the same one line: a crate of its own for it would be no plainer.
pub(crate) fn all(bytes: &[u8], value: u8) -> bool {
    bytes.iter().all(|byte| *byte == value)
}

// The byte that the table gives for the place, or else 0.
fn byte_at(table: &[(usize, u8)], place: usize) -> u8 {
    table
        .iter()
        .find(|row| row.0 == place)
        .map_or(0, |row| row.1)
}

// The bytes are those of the table at its places, and 0 everywhere else.
pub(crate) fn only(bytes: &[u8], table: &[(usize, u8)]) -> bool {
    bytes
        .iter()
        .enumerate()
        .all(|(place, byte)| *byte == byte_at(table, place))
}

// The report writes the line into an output of bytes 9, and nothing after it.
pub(crate) fn writes(book: &[u8], area: &mut [u8], out: &mut [u8], line: &[u8]) -> bool {
    report(book, area, out) == Ok(line.len()) && is_written(out, line)
}

// The output is the line and then bytes 9.
pub(crate) fn is_written(out: &[u8], line: &[u8]) -> bool {
    out.strip_prefix(line).is_some_and(|rest| all(rest, 9))
}

// The matrix is empty, and the later bytes of the area are still the value.
pub(crate) fn is_wiped(area: &[u8; 8200], value: u8) -> bool {
    all(&area[0..8192], 0) && all(&area[8192..], value)
}

// The report writes the line and nothing after it, and a refused book leaves an empty matrix.
pub(crate) fn says(book: &[u8], line: &[u8]) -> bool {
    let mut area = [7; 8200];
    let mut out = [9; 65540];
    let written = writes(book, &mut area, &mut out, line);
    let empty = !line.starts_with(b"refused") || all(&area[0..8192], 0);
    written & empty & all(&area[8192..], 7)
}
