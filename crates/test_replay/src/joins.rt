// Sews, unsews and lists of commands, which have scratch and a plan.
use inkcapper_flat::commands::inkcapper_commands;
use inkcapper_flat::sews;
use test_records::loans::{list_length, numbers, points, vertices};
use test_records::records::word;

// Makes the sew or unsew that a record names; a 2-sew without vertices (setting 0), or with those of the two worked ones.
pub fn join(
    record: &[u8],
    rows: &mut [u32],
    flags: &[u8],
    plan: &mut [u32],
    values: &mut [u64; 3],
) -> Option<u32> {
    let mut m = [165u8; 8];
    let mut q = [7u32; 8];
    let a = word(record, 2);
    let b = word(record, 3);
    let setting = word(record, 8);
    let v = vertices(setting);
    let at = points(setting);
    match word(record, 0) {
        10 => Some(sews::inkcapper_one_sew(rows, &mut m, &mut q, flags, plan, a, b, values)),
        11 => Some(sews::inkcapper_one_unsew(rows, &mut m, &mut q, flags, plan, a, values)),
        12 => Some(sews::inkcapper_two_sew(
            rows, &mut m, &mut q, flags, &v, &at, plan, a, b, values,
        )),
        13 => Some(sews::inkcapper_two_unsew(rows, &mut m, &mut q, flags, plan, a, values)),
        14 => Some(sews::inkcapper_three_unsew(rows, &mut m, &mut q, flags, plan, a, values)),
        _ => None,
    }
}

// Makes the list of commands of a record, with vertices as for a 2-sew.
pub fn commands(
    record: &[u8],
    rows: &mut [u32],
    output: &mut [u32],
    flags: &[u8],
    plan: &mut [u32],
    values: &mut [u64; 3],
) -> u32 {
    let mut m = [165u8; 8];
    let mut q = [7u32; 8];
    let setting = word(record, 8);
    let v = vertices(setting);
    let at = points(setting);
    let list = numbers(record, 12);
    let n = list_length(record);
    inkcapper_commands(
        rows,
        &mut m,
        &mut q,
        output,
        flags,
        &v,
        &at,
        plan,
        &list[..n],
        values,
    )
}
