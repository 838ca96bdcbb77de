// What a call left, beside its record.
use crate::records::{darts, same, size, word};

// Whether the values are the record's.
fn same_values(values: &[u64; 3], record: &[u8]) -> bool {
    values[0] == u64::from(word(record, 5))
        && values[1] == u64::from(word(record, 6))
        && values[2] == u64::from(word(record, 7))
}

// Whether output and plan start with the words of a list of commands: answers are written to output, plans to plan.
fn same_listed(record: &[u8], output: &[u32], plan: &[u32], words: &[u8]) -> bool {
    match words.split_at_checked(size(record, 2)) {
        Some((answers, plans)) => same(output, answers) && same(plan, plans),
        None => false,
    }
}

// Whether output and plan are as the record says, by the words written: a list is written to output, a plan to plan.
fn same_written(record: &[u8], output: &[u32], plan: &[u32], words: &[u8]) -> bool {
    let operation = size(record, 0);
    if operation == 31 {
        return same_listed(record, output, plan, words);
    }
    if 18 < operation {
        return same(output, words) && same(plan, &[]);
    }
    same(plan, words) && same(output, &[])
}

// Whether the loans are as the record says.
fn same_loans(record: &[u8], rows: &[u32], output: &[u32], plan: &[u32]) -> bool {
    let n = darts(record);
    let m = 4 * n;
    let after = 12 + size(record, 10) + n + m;
    let written = after + m;
    let end = written + size(record, 11);
    if record.len() < end {
        return false;
    }
    same(rows, &record[after..written]) && same_written(record, output, plan, &record[written..end])
}

// Whether the number, the values and the loans after a call are the record's.
pub fn as_recorded(
    record: &[u8],
    number: u32,
    values: &[u64; 3],
    rows: &[u32],
    output: &[u32],
    plan: &[u32],
) -> bool {
    number == word(record, 4)
        && same_values(values, record)
        && same_loans(record, rows, output, plan)
}
