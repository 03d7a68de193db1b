// The calls on all nodes: parents, pose and placing. Room is for eight nodes and 32 entries.
use crate::told;
use lists::Fields;
use scene_lists::Scene;
use worlds::Room;

pub fn replay_parents(scene: Scene, fields: &mut Fields) -> bool {
    let mut out = [0u32; 8];
    let n = fields.words(&mut out);
    let out = &mut out[..n];
    let answer = graph::parents(scene.lent(), out);
    told::has_parents(fields, refusals::number(answer), out)
}

pub fn replay_pose(scene: Scene, fields: &mut Fields) -> bool {
    let mut marks = [0u32; 32];
    let mut slots = [0.0f32; 80];
    let m = fields.words(&mut marks);
    let s = fields.floats(&mut slots);
    let marks = &mut marks[..m];
    let slots = &mut slots[..s];
    let answer = pose::sample_pose(scene.lent(), fields.float(), marks, slots);
    told::has_pose(fields, refusals::number(answer), marks, slots)
}

pub fn replay_places(scene: Scene, fields: &mut Fields) -> bool {
    let mut marks = [0u32; 32];
    let mut slots = [0.0f32; 80];
    let mut walk = [0u32; 64];
    let mut places = [0u32; 8];
    let mut worlds = [0.0f32; 128];
    let m = fields.words(&mut marks);
    let s = fields.floats(&mut slots);
    let k = fields.words(&mut walk);
    let p = fields.words(&mut places);
    let w = fields.floats(&mut worlds);
    let mut room = Room {
        walk: &mut walk[..k],
        places: &mut places[..p],
        worlds: &mut worlds[..w],
    };
    let answer = worlds::posed_node_transforms(scene.lent(), &marks[..m], &slots[..s], &mut room);
    told::has_places(
        fields,
        refusals::number(answer),
        answer.unwrap_or(0),
        &walk[..k],
        &places[..p],
        &worlds[..w],
    )
}
