ghost use Rattle.std.specs.Prelude.{◌≡◌};
ghost use Rattle.model.specs.Sampling.{in_line};

// Whether every key is finite and above the one before. One pass that reads no key twice: between a first and a last
// key that are finite, keys that rise are finite too.
pub fn keys_in_line(keys: &[f32]) -> bool
    ensures { result ≡ in_line keys.now }
{
    if keys.len() == 0 {
        return true;
    }
    let mut last = keys[0];
    let mut rising = float::is_finite(last);
    for i in 1..keys.len() {
        let key = keys[i];
        rising = rising & (last < key);
        last = key;
    }
    rising & float::is_finite(last)
}
