// Palettes, skin roots and morph weights. Room is for eight nodes and four joints.
use crate::told;
use lists::Fields;
use scene_lists::Scene;

pub fn replay_palette(scene: Scene, fields: &mut Fields) -> bool {
    let mut places = [0u32; 8];
    let mut worlds = [0.0f32; 128];
    let mut out = [0.0f32; 64];
    let p = fields.words(&mut places);
    let w = fields.floats(&mut worlds);
    let n = fields.floats(&mut out);
    let out = &mut out[..n];
    let skin = fields.word();
    let answer = skin::joint_matrices_with(scene.lent(), skin, &places[..p], &worlds[..w], out);
    told::has_palette(fields, refusals::number(answer), answer.unwrap_or(0), out)
}

pub fn replay_root(scene: Scene, fields: &mut Fields) -> bool {
    let answer = skin_roots::skin_root(scene.lent(), fields.word());
    told::has_numbers(
        fields,
        refusals::number(answer),
        answer.unwrap_or(0) as usize,
    )
}

pub fn replay_weights(scene: Scene, fields: &mut Fields) -> bool {
    let node = fields.word();
    let lent = scene.lent();
    let answer = skin::check_weights(lent, node);
    let weights = skin::effective_morph_weights(
        lent.words,
        lent.floats,
        lent.node_weights,
        lent.mesh_weights,
        lent.header,
        node,
    );
    told::has_weights(fields, refusals::number(answer), weights)
}
