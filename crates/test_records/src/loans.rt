// What is lent to a call, by its record.
ghost use Rattle.std.specs.Prelude.{◌≤◌};

use crate::records::{byte, darts, fill, size};

// The numbers of a record from a place on: 32, of which a call is lent the first.
pub fn numbers(record: &[u8], from: usize) -> [u32; 32] {
    let mut list = [0u32; 32];
    if record.len() < from {
        return list;
    }
    fill(&mut list, &record[from..]);
    list
}

// The rows before the call, and what stands behind them in the record.
pub fn rows_before(record: &[u8]) -> [u32; 32] {
    numbers(record, 12 + size(record, 10) + darts(record))
}

// The flags of a record: 8, of which a call is lent as many as there are darts.
pub fn flags(record: &[u8]) -> [u8; 8] {
    let at = 12 + size(record, 10);
    let mut flags = [0; 8];
    for (d, flag) in flags.iter_mut().enumerate() {
        *flag = byte(record, at + d);
    }
    flags
}

// How many numbers a list of commands has, at most 32.
pub fn list_length(record: &[u8]) -> usize
    ensures { result ≤ 32 }
{
    size(record, 10).min(32)
}

// The vertices of a 2-sew: none (setting 0), or one at each dart.
pub fn vertices(setting: u32) -> [u8; 8] {
    if setting == 0 {
        return [0u8; 8];
    }
    [1u8; 8]
}

// The coordinates of the two worked 2-sews: 2 is at (1,0,0); 3 is there too (setting 1), or 4 is at (0,1,0); all else is at (0,0,0).
pub fn points(setting: u32) -> [f64; 24] {
    let mut coordinates = [0.0f64; 24];
    if setting == 0 {
        return coordinates;
    }
    coordinates[6] = 1.0;
    if setting == 1 {
        coordinates[9] = 1.0;
    } else {
        coordinates[13] = 1.0;
    }
    coordinates
}
