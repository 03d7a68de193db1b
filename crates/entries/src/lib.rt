// The C functions on numbers, matrices and lent scenes; include/mesh3d.h declares them.
#![tactic(auto)]

mod inverses;
mod leaves;
mod lent;
mod matrices;

pub use inverses::{
    mesh3d_linear_inverse_transpose, mesh3d_mat4_affine_inverse, mesh3d_normal_matrix,
};
pub use leaves::{mesh3d_narrow_all, mesh3d_sqrt_all, mesh3d_sqrt_block, mesh3d_turn_weight_all};
pub use lent::{mesh3d_parents, mesh3d_place_floats, mesh3d_sample_pose, mesh3d_tables_number};
pub use matrices::{
    mesh3d_affine_point, mesh3d_from_matrix, mesh3d_identity, mesh3d_linear_det,
    mesh3d_linear_part, mesh3d_mat4_madd, mesh3d_mat4_mul, mesh3d_mul3, mesh3d_normalize3,
    mesh3d_rot_matrix_to_quat, mesh3d_to_matrix, mesh3d_transform_point, mesh3d_trs_to_matrix,
    mesh3d_vec3_len,
};
