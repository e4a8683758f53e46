ghost use Rattle.std.specs.Prelude.{◌≡◌, ℕ, List, take, IfOk, string_bytes};
ghost use Rattle.reports.specs.Listing.{refused_line};
ghost use Rattle.reports.specs.Output.{output};

use crate::kept::enough_bytes;
use crate::listing::Listing;
use crate::points::close_points;
use crate::reader::read;
use crate::refusal::LineRefusal;
use std::alloc::{AllocError, Global};

fn refused(heap: Global, number: u32, refusal: LineRefusal) -> Result<String, AllocError>
    ensures is_the_refused_line { IfOk result (λ t. string_bytes t ≡ refused_line number refusal) }
{
    format!(in heap; "curve {number} refused {}\n", refusal.number())
}

/// What is printed for the line with that number, given without its end.
pub fn line_output(heap: Global, number: u32, line: &[u8]) -> Result<String, AllocError>
    ensures is_the_output_of_the_line { IfOk result (λ t. string_bytes t ≡ output number line.now) }
{
    match read(line).and_then(close_points) {
        Ok(book) => Listing::new(number, &book).to_string(heap),
        Err(refusal) => refused(heap, number, refusal),
    }
}

/// How many bytes of a line tell all that is printed for it, so that no more need be kept.
pub fn telling_bytes() -> usize
    ensures is_one_more_than_a_line_may_have { result ≡ 1025 }
    ensures tell_what_is_printed { (n : ℕ) (s : List ℕ) → output n (take result s) ≡ output n s }
{
    enough_bytes()
}
