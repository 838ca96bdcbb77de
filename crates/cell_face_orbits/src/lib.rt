// The list of the Face orbits: the faces as the CGAL manual has them. The Rust has no such list: its own, `list_cells` of cell_list_calls, goes by the walk of
// `face_id`.
#![tactic(auto)]

ghost use Rattle.std.specs.Prelude.{◌≡◌};
ghost use Rattle.map_betas.specs.Answers.{outcome};
ghost use Rattle.cell_face_orbits.specs.FaceOrbits.{face_orbits_call};

use cell_list_calls::basic_ops::list_by;
use cell_list_calls::listings::Listing;
use cell_steps::cells::Class;
use map_betas::error::Answer;

// Lists the faces as the CGAL manual has them: each dart that is the least of its Face orbit and not unused, ascending.
pub fn list_face_orbits(
    rows: &[u32],
    marks: &mut [u8],
    queue: &mut [u32],
    output: &mut [u32],
    flags: &[u8],
) -> Answer
    ensures { outcome result (marks.new, queue.new, output.new)
        ≡ face_orbits_call rows.now marks.old queue.old output.old flags.now }
{
    list_by(
        rows,
        marks,
        queue,
        output,
        flags,
        Listing::Orbits(Class::Face),
    )
}
