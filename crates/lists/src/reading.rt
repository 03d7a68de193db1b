// Fields of a reader: eight hexadecimal digits with a blank or a line's end behind them.
ghost use Rattle.std.specs.Prelude.{◌≡◌, ℕ, ◌+◌, ◌*◌, ◌<◌, ◌≤◌, IfOk, OnErr, IfSome, length, take, drop};
ghost use Rattle.std.specs.Io.{ReadsAtMost};
ghost use Rattle.std.specs.Io.KnownBytes.{Consumes, IsAtEnd};
ghost use Rattle.lists.specs.Fields.{Puts};
ghost use Rattle.lists.specs.Inputs.{next_of, is_end, Leads, FewerBy, HasFields};

use crate::digits::field_in;
use std::alloc::Global;
use std::io;
use std::io::Read;

// How many fields the input has, and whether these are all of it. Those of a damaged input are replayed too, so this is
// no Result.
#[derive(Clone, Copy)]
pub struct Input {
    pub count: usize,
    pub whole: bool,
}

// One read, to a place on.
fn read_at<R: Read>(input: &mut R, buf: &mut [u8], at: usize) -> io::Result<usize>
    requires { at < length buf.old }
    ensures front { take at buf.new ≡ take at buf.old }
    ensures fits { IfOk result (λ n. at + n ≤ length buf.new) }
    ensures bytes { IfOk result (λ n. Consumes (R.remaining input.old) (R.remaining input.new)
        (take n (drop at buf.new))) }
    ensures end { IfOk result (λ n. n ≡ 0 → IsAtEnd (R.remaining input.new)) }
{
    input.read(&mut buf[at..])
}

// Reads until `buf` is full or the input ends, and answers how many bytes stand at its start.
pub fn read_full<R: Read>(input: &mut R, buf: &mut [u8]) -> io::Result<usize>
    ensures bound { ReadsAtMost result buf.new }
    ensures bytes { IfOk result (λ n. Consumes (R.remaining input.old) (R.remaining input.new) (take n buf.new)) }
    ensures end { IfOk result (λ n. n < length buf.new → IsAtEnd (R.remaining input.new)) }
{
    let mut done = 0;
    while done < buf.len() {
        let n = read_at(input, buf, done)?;
        if n == 0 {
            break;
        }
        done += n;
    }
    Ok(done)
}

// Reads up to `most` bytes, into memory of its own.
pub fn read_bytes<R: Read + Drop>(alloc: Global, input: R, most: u64) -> io::Result<Vec<u8>>
    ensures { IfOk result (λ bytes. IfSome (R.remaining input) (λ all. bytes.items ≡ take most all)) }
{
    let mut bytes = Vec::new(alloc);
    input.take(most).read_to_end(&mut bytes)?;
    Ok(bytes)
}

// What nine bytes of the input say, or as many as there are up to its end.
#[derive(Clone, Copy)]
enum Next {
    Field(u32),
    End,
    Other,
}

impl Next {
    fn of(text: &[u8]) -> Self
        ensures { result ≡ next_of text.now }
    {
        match field_in(text) {
            Some(word) => Next::Field(word),
            None if text.is_empty() => Next::End,
            None => Next::Other,
        }
    }

    fn read<R: Read>(input: &mut R) -> io::Result<Self>
        ensures { IfOk result (Leads (R.remaining input.old) (R.remaining input.new)) }
    {
        let mut text = [0u8; 9];
        let count = read_full(input, &mut text)?;
        Ok(Next::of(&text[..count]))
    }

    fn is_end(self) -> bool
        ensures { result ≡ is_end self }
    {
        matches!(self, Next::End)
    }
}

// Reads fields to the start of `out`, to the end of the input, to bytes that are none or as far as there is room. Where
// a read fails, the fields before it stand there.
pub fn read_fields<R: Read>(input: &mut R, out: &mut [u32]) -> io::Result<Input>
    ensures ok { IfOk result (λ fields. Puts out fields.count) }
    ensures err { OnErr result ((n : ℕ) × Puts out n) }
    ensures known { IfOk result (λ fields. IfSome (R.remaining input.old) (λ all. HasFields all out.new fields)) }
    ensures taken { IfOk result (λ fields. FewerBy (R.remaining input.old) (R.remaining input.new)
        (9 * (fields.count + 1))) }
{
    for count in 0..out.len() {
        let next = Next::read(input)?;
        let Next::Field(word) = next else {
            let whole = next.is_end();
            return Ok(Input { count, whole });
        };
        out[count] = word;
    }
    let whole = Next::read(input)?.is_end();
    Ok(Input {
        count: out.len(),
        whole,
    })
}

#[cfg(test)]
mod tests {
    use super::*;
    use std::test::Fail;

    #[test]
    fn bytes_up_to_a_limit(rt: HostRuntime) -> Result<(), Fail> {
        let text = b"0000002a zzz";
        let none = read_bytes(rt.alloc(), &text[..], 0)?;
        assert_eq!(rt; none.len(), 0);
        let field = read_bytes(rt.alloc(), &text[..], 9)?;
        assert_eq!(rt; field.as_slice(), &text[..9]);
        let all = read_bytes(rt.alloc(), &text[..], 100)?;
        assert_eq!(rt; all.as_slice(), &text[..]);
        Ok(())
    }
}
