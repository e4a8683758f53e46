//! The lines of an input, of which only the first bytes are kept.
ghost use Rattle.std.specs.Prelude.{◌≡◌, ◌≢◌, ◌==◌, take, OnOk, IfSome};
ghost use Rattle.std.specs.Io.{StopsAt};
ghost use Rattle.std.specs.Io.BufRead.{take_through};
ghost use Rattle.std.specs.List.{All, before_first};

use std::io;
use std::io::{BufRead, Read};

/// Reads up to `most` bytes, through the next line end.
fn read_part<R: BufRead>(input: &mut R, line: &mut Vec<u8>, most: usize) -> io::Result<usize>
    ensures stops_at_a_line_end { OnOk result (StopsAt line.new.items 10) }
    ensures takes_the_first_bytes { OnOk result (IfSome (R.remaining input.old) (λ xs. line.new.items ≡ take_through 10 (take most xs))) }
{
    line.clear();
    // Not input.by_ref().take(..): by_ref promises nothing of the reader that it lends.
    Read::take(&mut *input, most as u64).read_until(b'\n', line)
}

/// Reads the next line without its end, keeps up to `most` bytes of it, and answers whether there was one; the bytes are in the caller's buffer,
/// which serves every line.
#[tactic(auto, using(crate::proofs::Ends::no_line_end, crate::proofs::Ends::all_kept, crate::proofs::Ends::all_but_the_end))]
pub(crate) fn next_line<R: BufRead>(
    input: &mut R,
    line: &mut Vec<u8>,
    most: usize,
) -> io::Result<bool>
    ensures keeps_no_line_end { OnOk result (All (λ c. c ≢ 10) line.new.items) }
    ensures keeps_the_first_bytes { OnOk result (IfSome (R.remaining input.old) (λ xs. line.new.items ≡ take most (before_first (λ c. c == 10) xs))) }
{
    read_part(input, line, most)?;
    match line.last() {
        None => return Ok(false),
        Some(b'\n') => {
            line.pop();
        }
        // The end of the line comes behind the bytes that are kept, if as many are kept as may be; else the input ended before it, and is not
        // read again.
        Some(_) => {
            if line.len() == most {
                input.skip_until(b'\n')?;
            }
        }
    }
    Ok(true)
}

#[cfg(test)]
mod tests {
    use super::next_line;
    use std::io;
    use std::io::{BufRead, Read};
    use std::test::Fail;

    // An input that a terminal may give: it comes in parts, and an empty part is an end after which more may be typed.
    #[derive(Drop)]
    struct Typed<'a> {
        now: &'a [u8],
        later: &'a [&'a [u8]],
    }

    impl Read for Typed<'_> {
        fn read(&mut self, _buffer: &mut [u8]) -> io::Result<usize> {
            Ok(0)
        }
    }

    impl BufRead for Typed<'_> {
        fn fill_buf(&mut self) -> io::Result<&[u8]> {
            if self.now.is_empty() {
                if let [next, later @ ..] = self.later {
                    self.now = next;
                    self.later = later;
                }
            }
            Ok(self.now)
        }

        fn consume(&mut self, amount: usize) {
            self.now = self.now.get(amount..).unwrap_or(&[]);
        }
    }

    #[test]
    fn a_line_that_an_end_cuts_off_is_not_read_on(rt: HostRuntime) -> Result<(), Fail> {
        let mut input = Typed {
            now: b"abc",
            later: &[b"", b"def\n"],
        };
        let mut line = Vec::new(rt.alloc());
        assert!(rt; next_line(&mut input, &mut line, 5)?);
        assert!(rt; line.as_slice() == b"abc".as_slice());
        assert!(rt; next_line(&mut input, &mut line, 5)?);
        assert!(rt; line.as_slice() == b"def".as_slice());
        Ok(())
    }
}
