// An answer of `animation::sample`, and whether two are the same.
ghost use Rattle.std.specs.Prelude.{◌≡◌};
ghost use Rattle.replay_samples.specs.Same.{same_answer};

use animation::SampledValue;
use comparing::is_near;
use refusals::Refusal;

// A number of refusal, or 0, how many numbers there are, and these with zeros behind them. No Result, since what stands
// beside a refusal in the list is compared too.
#[derive(Clone, Copy)]
pub struct Answer {
    pub number: u32,
    pub count: usize,
    pub values: [f32; 4],
}

impl Answer {
    // What a sample gave, with the weights that it wrote.
    pub fn of(sampled: Result<SampledValue, Refusal>, weights: [f32; 4]) -> Self {
        let (number, count, values) = match sampled {
            Ok(SampledValue::Vec3(v)) => (0, 3, [v.x, v.y, v.z, 0.0]),
            Ok(SampledValue::Quat(q)) => (0, 4, [q.x, q.y, q.z, q.w]),
            Ok(SampledValue::Scalar(count)) => (0, count, weights),
            Err(refusal) => (u32::from(refusal), 0, weights),
        };
        Answer {
            number,
            count,
            values,
        }
    }

    // Whether this is another answer, each number being less than `most` apart.
    pub fn is_same(&self, other: &Answer, most: f64) -> bool
        ensures { result ≡ same_answer self.now other.now most }
    {
        self.number == other.number
            && self.count == other.count
            && self
                .values
                .iter()
                .zip(&other.values)
                .all(|(x, y)| is_near(*x, *y, most))
    }
}
