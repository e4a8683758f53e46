ghost use Rattle.std.specs.Prelude.{◌≡◌, ◌^◌, ◌<◌, IfSome};
ghost use Rattle.reports.specs.Lines.{number_of, signed_of};

/// The number that 1 to 13 digits write.
pub(crate) fn read_number(field: &[u8]) -> Option<u64>
    ensures is_the_number { result ≡ number_of field.now }
    ensures below_ten_to_13 { IfSome result (λ n. n < 10 ^ 13) }
{
    if field.is_empty() || field.len() > 13 {
        return None;
    }
    let mut number: u64 = 0;
    for byte in field {
        if !byte.is_ascii_digit() {
            return None;
        }
        number = number * 10 + u64::from(*byte - b'0');
    }
    Some(number)
}

/// The number that digits write, with one minus before them if it is negative: the reader above, and a sign.
pub(crate) fn read_signed(field: &[u8]) -> Option<i64>
    ensures is_the_signed_number { result ≡ signed_of field.now }
{
    match field {
        [b'-', digits @ ..] => {
            let size = read_number(digits)?;
            Some(-(size as i64))
        }
        _ => {
            let size = read_number(field)?;
            Some(size as i64)
        }
    }
}
