// Columns, counted in characters.

// Whether a byte begins a character: all but those that go on with one of several bytes.
fn begins(byte: u8) -> bool {
    byte & 0xC0 != 0x80
}

/// Returns the column of the character that begins after a number of bytes of a line, counted from 1.
pub fn column_at(line: &[u8], at: usize) -> u32 {
    let mut column: u32 = 1;
    for byte in line.iter().take(at) {
        if begins(*byte) {
            column = column.saturating_add(1);
        }
    }
    column
}
