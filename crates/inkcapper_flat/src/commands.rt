// Lists of commands.
ghost use Rattle.std.specs.Prelude.{◌≡◌};
ghost use Rattle.map_betas.specs.Flat.{crossing, crossed};
ghost use Rattle.sew_commands.specs.Calls.{commands as commandsOf};

use inkcapper::hand_on;

// A list of links, sews, unlinks and unsews, three numbers each, under one map test.
pub fn inkcapper_commands(
    rows: &mut [u32],
    marks: &mut [u8],
    queue: &mut [u32],
    output: &mut [u32],
    flags: &[u8],
    vertices: &[u8],
    coordinates: &[f64],
    plan: &mut [u32],
    commands: &[u32],
    values: &mut [u64; 3],
) -> u32
    ensures { crossing result values.new (rows.new, marks.new, queue.new, output.new, plan.new)
        ≡ crossed (commandsOf rows.old marks.old queue.old output.old flags.now
        vertices.now coordinates.now plan.old commands.now) }
{
    hand_on(
        inkcapper::commands(
            rows,
            marks,
            queue,
            output,
            flags,
            vertices,
            coordinates,
            plan,
            commands,
        ),
        values,
    )
}
