// Results that are copied into an output.
#![tactic(auto)]

ghost use Rattle.outputs.specs.Output.{CopiesBy};

use refusals::Refusal;

// Copies a result to the start of `out`, where the call for it is accepted, and answers how many floats were copied.
// Without room for all of them the output is short. Where a refusal is answered, nothing is changed. A refusal is
// answered as it came, whatever the caller's own type for refusals is.
pub fn copy_out<E: From<Refusal>>(
    drawn: Result<(), E>,
    res: &[f32],
    out: &mut [f32],
) -> Result<usize, E>
    ensures { CopiesBy E.from_gives drawn res.now out result }
{
    drawn?;
    if out.len() < res.len() {
        return Err(E::from(Refusal::ShortOutput));
    }
    Ok(wire::copy_floats(res, out))
}
