// Matrices, quaternions and transforms: the port of scene.rs's transforms, and of the small matrix functions of
// skinning.rs and transform.rs. Matrices are row by row, the translation in the fourth column.
#![tactic(auto)]

mod matrices;
mod transforms;
mod vectors;

pub use matrices::{
    affine_point, identity, linear_det, linear_part, load, mat4_madd, mat4_mul, matrix_at, store,
    transform_point,
};
pub use transforms::{from_matrix, rot_matrix_to_quat, to_matrix, trs_to_matrix};
pub use vectors::{mul3, normalize3, vec3_len};

#[derive(Clone, Copy)]
pub struct Vec3 {
    pub x: f32,
    pub y: f32,
    pub z: f32,
}

#[derive(Clone, Copy)]
pub struct Quat {
    pub x: f32,
    pub y: f32,
    pub z: f32,
    pub w: f32,
}

// Sixteen numbers, row by row.
#[derive(Clone, Copy)]
pub struct Mat4 {
    pub m: [f32; 16],
}

// A linear part by its entries: row, column.
#[derive(Clone, Copy)]
pub struct Mat3 {
    pub m00: f32,
    pub m01: f32,
    pub m02: f32,
    pub m10: f32,
    pub m11: f32,
    pub m12: f32,
    pub m20: f32,
    pub m21: f32,
    pub m22: f32,
}

#[derive(Clone, Copy)]
pub struct Trs {
    pub translation: Vec3,
    pub rotation: Quat,
    pub scale: Vec3,
}

// A node's base transform.
#[derive(Clone, Copy)]
pub enum Transform {
    Trs(Trs),
    Matrix(Mat4),
}
