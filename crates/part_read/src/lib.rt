//! What all readers of boards share: what the elements of a list say, as numbers, names, layers,
//! nets, points on a board, and graphics.
#![tactic(auto)]

mod atoms;
mod capacity;
mod circles;
mod corners;
mod drawings;
mod figures;
mod graphics;
mod layers;
mod names;
mod nets;
mod numbers;
mod on_board;
mod placements;
mod radii;
mod rounding;

pub use atoms::{bad_number, first_atom, missing, second_atom};
pub use capacity::has_capacity_after;
pub use circles::radius_between;
pub use corners::Corners;
pub use drawings::{GraphicKind, corners_of, drawing_of, raw_point_in, raw_points_in};
pub use figures::{Drawing, Figure, box_core, draw_into, is_ring};
pub use graphics::{
    LayerRole, curve_by, layer_role_of, name_of_list, no_parts, one_part, plain_item, read_graphic,
    read_text,
};
pub use layers::{
    copper_in, layer_in, layer_of, layers_listed, layers_named, layers_through, named,
};
pub use names::name_in;
pub use nets::net_of;
pub use numbers::{RawPoint, length_in, number_in, raw_point_of, size_given, size_in, size_of};
pub use on_board::{Strip, fits_board, point_at, strip_shape};
pub use placements::{Placement, points_stood, stand};
pub use radii::Radius;
pub use rounding::{around, no_radius, radius_of};
