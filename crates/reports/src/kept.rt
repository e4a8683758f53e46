ghost use Rattle.std.specs.Prelude.{◌≡◌, ℕ, List, take};
ghost use Rattle.reports.specs.Output.{output};

/// One byte more than a line may have: these tell that it is too long.
pub(crate) fn enough_bytes() -> usize
    ensures is_one_more_than_a_line_may_have { result ≡ 1025 }
    ensures tell_what_is_printed { (n : ℕ) (s : List ℕ) → output n (take result s) ≡ output n s }
{
    1025
}
