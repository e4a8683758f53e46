// Reading the record that is due at a byte of a sheet.
ghost use Rattle.std.specs.Prelude.{◌≡◌, ◌+◌, ◌-◌, ◌≤◌, length, take, drop};
ghost use Rattle.records.specs.Bytes.{field};
ghost use Rattle.records.specs.Reading.{BodyIsTheSheets, HasTheBody, WhatIsEncodedIsRead, WhatIsReadIsEncoded, due, entry_of, said, told};

use crate::fault::RecordFault;
use crate::fields::array_at;
use crate::record::Record;

/// The count in the body of an end. A function and no `From`, which is std's own for numbers.
pub fn read_count(body: &[u8; 4]) -> u32
    ensures is_the_number_of_the_body { result ≡ field body.now 0 4 }
{
    u32::from_le_bytes(*body)
}

/// The record of this kind and length that starts at the byte `at` of the sheet; none where the kind is unknown or has another length.
fn record_of(kind: u16, size: usize, sheet: &[u8], at: usize) -> Option<Record<'_>>
    requires within { at + size ≤ length sheet.now }
    ensures says_what_the_body_says { told result ≡ entry_of kind size (take (size - 4) (drop (at + 4) sheet.now)) }
    ensures has_the_body { HasTheBody size (take (size - 4) (drop (at + 4) sheet.now)) result }
{
    // Here the numbers of the kinds, which the format has, become cases; nothing else reads them.
    match (kind, size) {
        (1, 28) => Some(Record::Head(array_at(sheet, at + 4))),
        (2, 40) => Some(Record::Clean(array_at(sheet, at + 4))),
        (3, 16) => Some(Record::Hit(array_at(sheet, at + 4))),
        (4, 16) => Some(Record::Miss(array_at(sheet, at + 4))),
        (5, 8) => Some(Record::End(array_at(sheet, at + 4))),
        _ => None,
    }
}

/// The record that is due at the byte `at` of the sheet, and the byte behind it.
fn next_record(sheet: &[u8], at: usize) -> Result<(Record<'_>, usize), RecordFault>
    ensures is_the_record_due { said result ≡ due sheet.now at }
    ensures the_body_is_the_sheets { BodyIsTheSheets sheet.now at result }
{
    if at > sheet.len() || sheet.len() - at < 4 {
        return Err(RecordFault::Short);
    }
    let size = u16::from_le_bytes(*array_at(sheet, at)) as usize;
    let kind = u16::from_le_bytes(*array_at(sheet, at + 2));
    if sheet.len() - at < size {
        return Err(RecordFault::Short);
    }
    let record = record_of(kind, size, sheet, at).ok_or(RecordFault::Form)?;
    Ok((record, at + size))
}

/// The same, with the laws that tie reading to encoding.
fn lawful_record(sheet: &[u8], at: usize) -> Result<(Record<'_>, usize), RecordFault>
    ensures is_the_record_due { said result ≡ due sheet.now at }
    ensures the_body_is_the_sheets { BodyIsTheSheets sheet.now at result }
    ensures what_is_encoded_is_read { WhatIsEncodedIsRead }
    ensures what_is_read_is_encoded { WhatIsReadIsEncoded }
{
    next_record(sheet, at)
}

/// The record that is due at the byte `at` of the sheet, and the byte behind it.
pub fn record_at(sheet: &[u8], at: usize) -> Result<(Record<'_>, usize), RecordFault>
    ensures is_the_record_due { said result ≡ due sheet.now at }
    ensures the_body_is_the_sheets { BodyIsTheSheets sheet.now at result }
    ensures what_is_encoded_is_read { WhatIsEncodedIsRead }
    ensures what_is_read_is_encoded { WhatIsReadIsEncoded }
{
    lawful_record(sheet, at)
}
