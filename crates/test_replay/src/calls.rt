// The exported calls by their number in the list.
use crate::cells::cells;
use crate::joins::{commands, join};
use inkcapper_flat::{links, reads};
use test_records::records::word;

// Makes the call that a record names, if it names one: its number is answered, the values are written.
// Stays: an operation is a number, as the records have it: an enum would be made of the number and matched at once.
pub fn call(
    record: &[u8],
    rows: &mut [u32],
    output: &mut [u32],
    flags: &[u8],
    plan: &mut [u32],
    values: &mut [u64; 3],
) -> Option<u32> {
    let operation = word(record, 0);
    let a = word(record, 2);
    let b = word(record, 3);
    if operation < 4 {
        return read(operation, rows, a, b, values);
    }
    if operation < 10 {
        return link(operation, rows, flags, a, b, values);
    }
    if operation < 15 {
        return join(record, rows, flags, plan, values);
    }
    if operation < 31 {
        return cells(record, rows, output, flags, values);
    }
    Some(commands(record, rows, output, flags, plan, values))
}

// Beta reads and free tests.
fn read(operation: u32, rows: &[u32], a: u32, b: u32, values: &mut [u64; 3]) -> Option<u32> {
    match operation {
        1 => Some(reads::inkcapper_beta(rows, a, b, values)),
        2 => Some(reads::inkcapper_is_i_free(rows, a, b, values)),
        3 => Some(reads::inkcapper_is_free(rows, a, values)),
        _ => None,
    }
}

// Links and unlinks.
fn link(
    operation: u32,
    rows: &mut [u32],
    flags: &[u8],
    a: u32,
    b: u32,
    values: &mut [u64; 3],
) -> Option<u32> {
    match operation {
        4 => Some(links::inkcapper_one_link(rows, flags, a, b, values)),
        5 => Some(links::inkcapper_two_link(rows, flags, a, b, values)),
        6 => Some(links::inkcapper_three_link(rows, flags, a, b, values)),
        7 => Some(links::inkcapper_one_unlink(rows, flags, a, values)),
        8 => Some(links::inkcapper_two_unlink(rows, flags, a, values)),
        9 => Some(links::inkcapper_three_unlink(rows, flags, a, values)),
        _ => None,
    }
}
