// Sews and unsews.
ghost use Rattle.std.specs.Prelude.{◌≡◌};
ghost use Rattle.sew_ground.specs.Calls.{one_sew, one_unsew, two_sew, two_unsew};
ghost use Rattle.sew_pairs.specs.Calls.{three_unsew};
ghost use Rattle.map_betas.specs.Flat.{crossing, crossed};

use inkcapper::hand_on;

// The 1-sew of ld and rd.
pub fn inkcapper_one_sew(
    rows: &mut [u32],
    marks: &mut [u8],
    queue: &mut [u32],
    flags: &[u8],
    plan: &mut [u32],
    ld: u32,
    rd: u32,
    values: &mut [u64; 3],
) -> u32
    ensures { crossing result values.new (rows.new, marks.new, queue.new, plan.new)
        ≡ crossed (one_sew rows.old marks.old queue.old flags.now plan.old ld rd) }
{
    hand_on(
        inkcapper::one_sew(rows, marks, queue, flags, plan, ld, rd),
        values,
    )
}

// The 1-unsew of ld.
pub fn inkcapper_one_unsew(
    rows: &mut [u32],
    marks: &mut [u8],
    queue: &mut [u32],
    flags: &[u8],
    plan: &mut [u32],
    ld: u32,
    values: &mut [u64; 3],
) -> u32
    ensures { crossing result values.new (rows.new, marks.new, queue.new, plan.new)
        ≡ crossed (one_unsew rows.old marks.old queue.old flags.now plan.old ld) }
{
    hand_on(
        inkcapper::one_unsew(rows, marks, queue, flags, plan, ld),
        values,
    )
}

// The 2-sew of ld and rd.
pub fn inkcapper_two_sew(
    rows: &mut [u32],
    marks: &mut [u8],
    queue: &mut [u32],
    flags: &[u8],
    vertices: &[u8],
    coordinates: &[f64],
    plan: &mut [u32],
    ld: u32,
    rd: u32,
    values: &mut [u64; 3],
) -> u32
    ensures { crossing result values.new (rows.new, marks.new, queue.new, plan.new)
        ≡ crossed (two_sew rows.old marks.old queue.old flags.now vertices.now
        coordinates.now plan.old ld rd) }
{
    hand_on(
        inkcapper::two_sew(
            rows,
            marks,
            queue,
            flags,
            vertices,
            coordinates,
            plan,
            ld,
            rd,
        ),
        values,
    )
}

// The 2-unsew of ld.
pub fn inkcapper_two_unsew(
    rows: &mut [u32],
    marks: &mut [u8],
    queue: &mut [u32],
    flags: &[u8],
    plan: &mut [u32],
    ld: u32,
    values: &mut [u64; 3],
) -> u32
    ensures { crossing result values.new (rows.new, marks.new, queue.new, plan.new)
        ≡ crossed (two_unsew rows.old marks.old queue.old flags.now plan.old ld) }
{
    hand_on(
        inkcapper::two_unsew(rows, marks, queue, flags, plan, ld),
        values,
    )
}

// The 3-unsew of ld.
pub fn inkcapper_three_unsew(
    rows: &mut [u32],
    marks: &mut [u8],
    queue: &mut [u32],
    flags: &[u8],
    plan: &mut [u32],
    ld: u32,
    values: &mut [u64; 3],
) -> u32
    ensures { crossing result values.new (rows.new, marks.new, queue.new, plan.new)
        ≡ crossed (three_unsew rows.old marks.old queue.old flags.now plan.old ld) }
{
    hand_on(
        inkcapper::three_unsew(rows, marks, queue, flags, plan, ld),
        values,
    )
}
