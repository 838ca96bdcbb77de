// The records: what each says of one call, and what a walk over them met.
//
// A record is one byte for each number: operation, n, a, b, number, three values, points, room, count of betas, count of words written;
// then the betas or the numbers of a list of commands, n flags, 4n rows before, 4n rows after, and the words written.
ghost use Rattle.std.specs.Prelude.{◌≤◌};

// What stands in output and plan before a call.
pub const FILLER: u32 = 3235774464;

// What a walk met: the records, those that differ, the first of these counted from 1, and the bytes that are no record.
#[derive(Clone, Copy, Debug)]
pub struct Walked {
    pub records: u64,
    pub differences: u64,
    pub first: Option<u64>,
    pub rest: usize,
}

// The byte at a place, 0 behind the end.
pub fn byte(bytes: &[u8], at: usize) -> u8 {
    bytes.get(at).copied().unwrap_or(0)
}

// The number at a place, 0 behind the end.
pub fn word(bytes: &[u8], at: usize) -> u32 {
    u32::from(byte(bytes, at))
}

// The number at a place as a count.
pub fn size(bytes: &[u8], at: usize) -> usize
    ensures { result ≤ 255 }
{
    usize::from(byte(bytes, at))
}

// The darts of a record, at most 8.
pub fn darts(record: &[u8]) -> usize
    ensures { result ≤ 8 }
{
    let n = size(record, 1);
    if n < 9 { n } else { 0 }
}

// The words of plan that are lent, at most 64.
pub fn room(record: &[u8]) -> usize
    ensures { result ≤ 64 }
{
    size(record, 9).min(64)
}

// The length of the first record by its own counts.
pub fn extent(bytes: &[u8]) -> usize
    ensures { 12 ≤ result }
{
    12 + size(bytes, 10) + 9 * darts(bytes) + size(bytes, 11)
}

// Copies numbers of a record into rows.
pub fn fill(rows: &mut [u32], bytes: &[u8]) {
    for (i, row) in rows.iter_mut().enumerate() {
        *row = word(bytes, i);
    }
}

// What stands at a place of a loan whose first words were written: the record's number, or behind those what stood there before.
fn wanted(words: &[u8], i: usize) -> u32 {
    words.get(i).copied().map_or(FILLER, u32::from)
}

// Whether a loan starts with the words of a record, and the rest is as before the call.
pub fn same(list: &[u32], words: &[u8]) -> bool {
    words.len() <= list.len() && list.iter().enumerate().all(|(i, &x)| x == wanted(words, i))
}

// Counts a record by its operation and by its number.
pub fn count(record: &[u8], agree: &mut [u64; 32], numbers: &mut [u64; 16]) {
    if let Some(times) = agree.get_mut(size(record, 0)) {
        *times = times.wrapping_add(1);
    }
    if let Some(times) = numbers.get_mut(size(record, 4)) {
        *times = times.wrapping_add(1);
    }
}

// Notes one record more.
pub fn noted(walked: Walked, good: bool) -> Walked {
    let records = walked.records.wrapping_add(1);
    if good {
        return Walked { records, ..walked };
    }
    Walked {
        records,
        differences: walked.differences.wrapping_add(1),
        first: walked.first.or(Some(records)),
        ..walked
    }
}
