// The replay: record after record, each with its call.
use crate::calls::call;
use test_records::compared::as_recorded;
use test_records::loans::{flags, rows_before};
use test_records::records::{FILLER, Walked, count, darts, extent, noted, room};

// The number that stands for no call.
const NONE: u32 = 255;

// Makes a record's call on these loans and compares.
fn replayed(
    record: &[u8],
    rows: &mut [u32],
    output: &mut [u32],
    flags: &[u8],
    plan: &mut [u32],
) -> bool {
    let mut values = [0u64; 3];
    let number = call(record, rows, output, flags, plan, &mut values).unwrap_or(NONE);
    as_recorded(record, number, &values, rows, output, plan)
}

// Lends a record's call what it needs, and compares.
fn holds(record: &[u8]) -> bool {
    let mut rows = rows_before(record);
    let mut output = [FILLER; 32];
    let mut plan = [FILLER; 64];
    let lent = flags(record);
    let n = darts(record);
    let m = 4 * n;
    let words = room(record);
    replayed(
        record,
        &mut rows[..m],
        &mut output,
        &lent[..n],
        &mut plan[..words],
    )
}

// Replays one record and counts it where it agrees.
fn replay(record: &[u8], agree: &mut [u64; 32], numbers: &mut [u64; 16]) -> bool {
    let good = holds(record);
    if good {
        count(record, agree, numbers);
    }
    good
}

// Replays record after record, until no whole one is left.
// Stays: how far the next record reaches stands in it, so no range has the places.
pub fn walk(bytes: &[u8], agree: &mut [u64; 32], numbers: &mut [u64; 16]) -> Walked {
    let mut walked = Walked {
        records: 0,
        differences: 0,
        first: None,
        rest: bytes.len(),
    };
    let mut at = 0;
    while at < bytes.len() {
        let n = extent(&bytes[at..]);
        if bytes.len() - at < n {
            return walked;
        }
        let good = replay(&bytes[at..at + n], agree, numbers);
        walked = noted(walked, good);
        at += n;
        walked.rest = bytes.len() - at;
    }
    walked
}
