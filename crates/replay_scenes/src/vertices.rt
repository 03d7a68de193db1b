// The calls on vertices in flat lists, of up to 64 floats each.
use crate::told;
use borrowed::Vertices;
use lists::Fields;
use scene::Mat4;
use scene_lists::Scene;
use tracks::Part;
use vertex_rows::Influences;

// The next three lists, lent to a call that changes them.
fn read_vertices<'a>(
    fields: &mut Fields,
    positions: &'a mut [f32],
    normals: &'a mut [f32],
    tangents: &'a mut [f32],
) -> Vertices<'a> {
    let p = fields.floats(positions);
    let n = fields.floats(normals);
    let t = fields.floats(tangents);
    Vertices {
        positions: &mut positions[..p],
        normals: &mut normals[..n],
        tangents: &mut tangents[..t],
    }
}

// Whether they are the next three lists.
fn are_told(v: &Vertices, fields: &mut Fields) -> bool {
    told::has_vertices(fields, v.positions, v.normals, v.tangents)
}

// The next list as a matrix, with zeros where entries lack.
fn matrix(fields: &mut Fields) -> Mat4 {
    let mut m = [0.0f32; 16];
    fields.floats(&mut m);
    Mat4 { m }
}

pub fn replay_transformed(fields: &mut Fields) -> bool {
    let mut positions = [0.0f32; 64];
    let mut normals = [0.0f32; 64];
    let mut tangents = [0.0f32; 64];
    let mut v = read_vertices(fields, &mut positions, &mut normals, &mut tangents);
    transform::transformed(matrix(fields), &mut v);
    are_told(&v, fields)
}

pub fn replay_skinned(fields: &mut Fields) -> bool {
    let mut positions = [0.0f32; 64];
    let mut normals = [0.0f32; 64];
    let mut tangents = [0.0f32; 64];
    let mut v = read_vertices(fields, &mut positions, &mut normals, &mut tangents);
    let mut palette = [0.0f32; 96];
    let mut weights = [0.0f32; 64];
    let p = fields.floats(&mut palette);
    let joints = fields.list(64);
    let w = fields.floats(&mut weights);
    let by = Influences {
        palette: &palette[..p],
        joints,
        weights: &weights[..w],
    };
    skinning::skinned(by, &mut v);
    are_told(&v, fields)
}

pub fn replay_morphed(scene: Scene, fields: &mut Fields) -> bool {
    let mut positions = [0.0f32; 64];
    let mut normals = [0.0f32; 64];
    let mut tangents = [0.0f32; 64];
    let mut v = read_vertices(fields, &mut positions, &mut normals, &mut tangents);
    let at = fields.number();
    let count = fields.number();
    let targets = Part { at, count };
    let mut weights = [0.0f32; 16];
    let w = fields.floats(&mut weights);
    mesh::morphed(scene.lent(), targets, &weights[..w], &mut v);
    are_told(&v, fields)
}
