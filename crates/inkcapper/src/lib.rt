// The calls of the library under one name, with what they take and answer. `inkcapper_flat` has them as C has them, on numbers and slices.
#![tactic(auto)]

pub use cell_calls::basic_ops::cell_id;
pub use cell_list_calls::basic_ops::list_cells;
pub use cell_orbits::orbits::{orbit, orbit_custom};
pub use cell_steps::cells::Class;
pub use cell_steps::policy::OrbitPolicy;
pub use image_reader::reader::read_image;
pub use image_writer::writer::write_image;
pub use link_flat::flat::{link, unlink};
pub use link_three_calls::three::{three_link, three_unlink};
pub use map_answers::flat::hand_on;
pub use map_betas::error::{Answer, Done, Loan, Refusal, Told};
pub use map_guard::guard::check_map;
pub use map_reads::basic_ops::{beta, is_free, is_i_free};
pub use sew_calls::calls::{one_sew, two_sew};
pub use sew_list_calls::commands::commands;
pub use sew_unsew_calls::calls::{one_unsew, three_unsew, two_unsew};
