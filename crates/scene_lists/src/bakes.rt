// A bake, done and compared with the one that stands in the fields: the lists of positions, normals and tangents as
// they are lent; node, time and whether a Linear turn is between its keys; the list of the walk room; the answer; the
// three lists as they are left. An output has up to 96 floats, the walk room up to 64 words.
ghost use Rattle.std.specs.Prelude.{◌≡◌};
ghost use Rattle.bake.specs.Baked.{output_room};
ghost use Rattle.lists.specs.Fields.{ahead_of};
ghost use Rattle.lists.specs.Moves.{MovesTo};
ghost use Rattle.scene_lists.specs.Bakes.{behind_outputs, left_at, allowed_of, asked_at, answer_at, same_answer};
ghost use Rattle.scene_lists.specs.Bakes.{outputs_compared, Rerun, Replayed};
ghost use Rattle.scene_lists.specs.Lent.{lent_of};

use crate::Scene;
use bake::Answer;
use borrowed::Vertices;
use comparing::Agreement;
use lists::Fields;
use worlds::Room;

// What a bake is asked for: the node, the time, and how far a float may lie from the Rust's.
#[derive(Clone, Copy)]
struct Asked {
    node: u32,
    time: f32,
    most: f64,
}

// How a bake went: the time, what it answered, whether that is the Rust's answer, how the floats that it left agree,
// and the first two outputs.
#[derive(Clone, Copy)]
pub struct Outcome {
    pub time: f32,
    pub answer: Answer,
    pub told: bool,
    pub floats: Agreement,
    pub positions: [f32; 96],
    pub normals: [f32; 96],
}

fn allowed(turns: u32) -> f64
    ensures { result ≡ allowed_of turns }
{
    if turns == 1 { lists::TURN_GAP } else { 0.0 }
}

impl Asked {
    fn read(fields: &mut Fields) -> Self
        ensures value { result ≡ asked_at fields.old.all.now fields.old.at }
        ensures moves { MovesTo fields.old fields.new (ahead_of fields.old.all.now fields.old.at 3) }
    {
        let node = fields.word();
        let time = fields.float();
        let most = allowed(fields.word());
        Asked { node, time, most }
    }
}

// The answer that is right.
fn right_answer(fields: &mut Fields) -> Answer
    ensures value { result ≡ answer_at fields.old.all.now fields.old.at }
    ensures moves { MovesTo fields.old fields.new (ahead_of fields.old.all.now fields.old.at 5) }
{
    let number = fields.word();
    let positions = fields.number();
    let normals = fields.number();
    let tangents = fields.number();
    let taken = fields.number();
    Answer {
        number,
        positions,
        normals,
        tangents,
        taken,
    }
}

pub fn is_told(a: Answer, expected: Answer) -> bool
    ensures { result ≡ same_answer a expected }
{
    a.number == expected.number
        && a.positions == expected.positions
        && a.normals == expected.normals
        && a.tangents == expected.tangents
        && a.taken == expected.taken
}

// The three outputs as they are left, beside the next lists.
fn compare_outputs(
    fields: &mut Fields,
    positions: &[f32],
    normals: &[f32],
    tangents: &[f32],
    most: f64,
) -> Agreement
    ensures value { result ≡ outputs_compared
        positions.now normals.now tangents.now fields.old.all.now fields.old.at most }
    ensures moves { MovesTo fields.old fields.new (behind_outputs fields.old.all.now fields.old.at) }
{
    let moved = comparing::compare(Agreement::new(), positions, fields.list(96), most);
    let turned = comparing::compare(moved, normals, fields.list(96), most);
    comparing::compare(turned, tangents, fields.list(96), most)
}

impl Scene<'_> {
    // With room for the poses and worlds of eight nodes. The outputs are slices here, and become one value, as what is
    // left in them is known by the call that borrows that value.
    fn bake(
        &self,
        asked: Asked,
        walk: &mut [u32],
        positions: &mut [f32],
        normals: &mut [f32],
        tangents: &mut [f32],
    ) -> Answer
        ensures { Rerun (lent_of self.now) asked walk.old (output_room positions normals tangents) result }
    {
        let mut marks = [0u32; 32];
        let mut slots = [0.0f32; 80];
        let mut places = [0u32; 8];
        let mut worlds = [0.0f32; 128];
        let mut room = Room {
            walk,
            places: &mut places,
            worlds: &mut worlds,
        };
        let mut out = Vertices {
            positions,
            normals,
            tangents,
        };
        Answer::from(bake::world_mesh_at(
            self.lent(),
            asked.node,
            asked.time,
            &mut marks,
            &mut slots,
            &mut room,
            &mut out,
        ))
    }

    // Does the next bake and compares.
    pub fn replay_bake(&self, fields: &mut Fields) -> Outcome
        ensures value { Replayed (lent_of self.now) fields.old.all.now fields.old.at result }
        ensures moves { MovesTo fields.old fields.new
            (behind_outputs fields.old.all.now (left_at fields.old.all.now
            (behind_outputs fields.old.all.now fields.old.at))) }
    {
        let mut positions = [0.0f32; 96];
        let mut normals = [0.0f32; 96];
        let mut tangents = [0.0f32; 96];
        let mut walk = [0u32; 64];
        let p = fields.floats(&mut positions);
        let n = fields.floats(&mut normals);
        let t = fields.floats(&mut tangents);
        let asked = Asked::read(fields);
        let w = fields.words(&mut walk);
        let answer = self.bake(
            asked,
            &mut walk[..w],
            &mut positions[..p],
            &mut normals[..n],
            &mut tangents[..t],
        );
        let told = is_told(answer, right_answer(fields));
        let floats = compare_outputs(
            fields,
            &positions[..p],
            &normals[..n],
            &tangents[..t],
            asked.most,
        );
        Outcome {
            time: asked.time,
            answer,
            told,
            floats,
            positions,
            normals,
        }
    }
}

#[cfg(test)]
mod tests {
    use super::*;

    // A scene without nodes, and three floats lent: the bake is refused, and leaves them as they were.
    #[test]
    fn refused_bake(rt: HostRuntime) {
        let mut list = [0u32; 43];
        let outputs = [2, 0x3f80_0000, 0x4000_0000, 1, 0x3f00_0000, 0];
        list[22..28].copy_from_slice(&outputs);
        list[32] = 7;
        list[37..43].copy_from_slice(&outputs);
        let mut fields = Fields::new(&list);
        let scene = Scene::read(&mut fields, &mut [], &mut [], &mut []);
        let o = scene.replay_bake(&mut fields);
        assert_eq!(rt; o.answer.number, 7);
        assert!(rt; o.told);
        assert_eq!(rt; o.floats.equal, 3);
        assert_eq!(rt; o.floats.differ, 0);
        assert!(rt; fields.is_end());
        assert_eq!(rt; &o.positions[..3], [1.0, 2.0, 0.0].as_slice());
        assert_eq!(rt; &o.normals[..2], [0.5, 0.0].as_slice());
    }
}
