//! A table of sheets, each with what the judge must answer.
//!
//! A line has the sheet's name, the letter of what it is asked for, the verdict in short, and the sheet's records in hex, with a space
//! between one and the next. Empty lines and those that begin with `#` are skipped.
use crate::assignments::{Task, task_of};
use crate::verdicts::Verdict;
use std::alloc::{AllocError, Global};
use std::io::{BufRead, Read};
use std::str::from_utf8;

/// How many bytes of the table are read at most, so that a line takes no more memory than that.
const MOST_BYTES: u64 = 1 << 20;

/// A line of the table.
#[derive(Drop)]
struct Row<'a> {
    name: &'a str,
    task: Task,
    expected: &'a str,
    sheet: Vec<u8>,
}

/// Why a line gives no row.
#[derive(Clone, Copy, PartialEq, Eq, Debug)]
enum NoRow {
    /// A field is missing, the letter is unknown, or the records are not in hex.
    Malformed,
    /// There is no memory for the sheet.
    Memory(AllocError),
}

impl From<AllocError> for NoRow {
    fn from(error: AllocError) -> NoRow {
        NoRow::Memory(error)
    }
}

/// The value of a hex digit. Not by the kit's `hex`, which takes capitals too.
fn digit(byte: u8) -> Option<u8> {
    match byte {
        b'0'..=b'9' => Some(byte - b'0'),
        b'a'..=b'f' => Some(byte - b'a' + 10),
        _ => None,
    }
}

/// The byte that two hex digits write; none of a digit alone, which `chunks` leaves at an odd end.
fn byte_of(pair: &[u8]) -> Option<u8> {
    let [high, low] = pair else {
        return None;
    };
    Some(digit(*high)? << 4 | digit(*low)?)
}

/// Appends the bytes that a text writes in hex.
fn decode(text: &str, bytes: &mut Vec<u8>) -> Result<(), NoRow> {
    for pair in text.as_bytes().chunks(2) {
        let byte = byte_of(pair).ok_or(NoRow::Malformed)?;
        bytes.push(byte).map_err(AllocError::from)?;
    }
    Ok(())
}

impl Row<'_> {
    /// What a line says.
    fn read(heap: Global, line: &[u8]) -> Result<Row<'_>, NoRow> {
        let text = from_utf8(line).map_err(|_| NoRow::Malformed)?;
        let mut fields = text.split(' ');
        let name = fields.next().ok_or(NoRow::Malformed)?;
        let letter = fields.next().ok_or(NoRow::Malformed)?;
        let expected = fields.next().ok_or(NoRow::Malformed)?;
        let task = task_of(letter).ok_or(NoRow::Malformed)?;
        let mut sheet = Vec::new(heap);
        for record in fields {
            decode(record, &mut sheet)?;
        }
        Ok(Row {
            name,
            task,
            expected,
            sheet,
        })
    }
}

/// Judges the sheet of a row, and prints the verdict and whether it is the expected one.
fn show_row(rt: &impl Print, heap: Global, row: &Row<'_>) -> anyhow::Result<()> {
    let name = row.name;
    let expected = row.expected;
    let verdict = Verdict::of(heap, row.task, row.sheet.as_slice())?;
    if verdict.reads(heap, expected)? {
        println!(rt; "sheet {name}: {verdict} (as expected)")?;
    } else {
        println!(rt; "sheet {name}: {verdict} (WRONG: expected {expected})")?;
    }
    Ok(())
}

/// Prints what the line with that number is about, unless it is to be skipped.
fn show_line(rt: &impl Print, heap: Global, number: u32, line: &[u8]) -> anyhow::Result<()> {
    let line = line.strip_suffix(b"\n").unwrap_or(line);
    if line.is_empty() || line.starts_with(b"#") {
        return Ok(());
    }
    match Row::read(heap, line) {
        Ok(row) => show_row(rt, heap, &row)?,
        Err(NoRow::Malformed) => println!(rt; "line {number} is no sheet")?,
        Err(NoRow::Memory(error)) => return Err(error.into()),
    }
    Ok(())
}

/// Judges the sheets of a table, and prints a line for each.
pub(crate) fn show_sheets<R: BufRead + Drop>(
    rt: &impl Print,
    heap: Global,
    input: R,
) -> anyhow::Result<()> {
    let mut table = input.take(MOST_BYTES);
    let mut line = Vec::new(heap);
    // Lines after the 9,999th are not read. (The other program's loop looks alike, but keeps a part of a line.)
    for number in 1..10_000u32 {
        line.clear();
        if table.read_until(b'\n', &mut line)? == 0 {
            break;
        }
        show_line(rt, heap, number, line.as_slice())?;
    }
    Ok(())
}

#[cfg(test)]
mod tests {
    use super::decode;
    use crate::assignments::{Task, block_of, straight, task_of};
    use std::alloc::{AllocError, Global};
    use std::test::Fail;

    const FIGURE_HEAD: &str = "1c00010009000000000000002d000000000000000500000000000000";

    const FIGURE_CLEAN: &str =
        "28000200000000000300000002000000010000000000000011000000000000000b00000000000000";

    const FIGURE_REST: &str = "100004000400000020000000000000000800050003000000";

    // How many hits a sheet has, or the number of its fault with the byte.
    fn judged(task: Task, sheet: &[u8], hits: &mut [u32; 512]) -> Result<u32, (u32, Option<u32>)> {
        task.judge(sheet, hits)
            .map_err(|refusal| (refusal.number(), refusal.byte()))
    }

    // The sheet of the figures, with its record for index 3.
    fn figure(heap: Global, third: &str) -> Result<Vec<u8>, Fail> {
        let mut sheet = Vec::new(heap);
        for part in [FIGURE_HEAD, FIGURE_CLEAN, third, FIGURE_REST] {
            decode(part, &mut sheet).map_err(|_| Fail::new("no hex"))?;
        }
        Ok(sheet)
    }

    // A sheet of 600 hits, with this count in its end.
    fn hits_600(heap: Global, count: u32) -> Result<Vec<u8>, AllocError> {
        let mut sheet = Vec::new(heap);
        sheet.extend_from_slice(&[28, 0, 1, 0, 9, 0, 0, 0, 0, 0, 0, 0])?;
        sheet.extend_from_slice(&[45, 0, 0, 0, 0, 0, 0, 0, 1, 0, 0, 0, 0, 0, 0, 0])?;
        for k in 0..600u32 {
            sheet.extend_from_slice(&[16, 0, 3, 0])?;
            sheet.extend_from_slice(&k.to_le_bytes())?;
            sheet.extend_from_slice(&[0; 8])?;
        }
        sheet.extend_from_slice(&[8, 0, 5, 0])?;
        sheet.extend_from_slice(&count.to_le_bytes())?;
        Ok(sheet)
    }

    #[test]
    fn figure_sheets(rt: HostRuntime) -> Result<(), Fail> {
        let task = task_of("S").ok_or("no such task")?;
        let mut hits = [7; 512];
        let faulty = figure(rt.alloc(), "10000400030000000400000000000000")?;
        assert_eq!(rt;
            judged(task, faulty.as_slice(), &mut hits),
            Err((27, Some(68)))
        );
        assert!(rt; hits == [7; 512]);
        let good = figure(rt.alloc(), "10000300030000000400000000000000")?;
        assert_eq!(rt; judged(task, good.as_slice(), &mut hits), Ok(1));
        assert_eq!(rt; hits[0], 3);
        assert!(rt; hits[1..] == [7; 511]);
        Ok(())
    }

    #[test]
    fn more_hits_than_places(rt: HostRuntime) -> Result<(), Fail> {
        let task = straight(600, 0, 0, block_of(0, 600, 1)).ok_or("no such task")?;
        let mut hits = [7; 512];
        let miscounted = hits_600(rt.alloc(), 599)?;
        assert_eq!(rt;
            judged(task, miscounted.as_slice(), &mut hits),
            Err((28, Some(28 + 600 * 16)))
        );
        assert!(rt; hits == [7; 512]);
        let good = hits_600(rt.alloc(), 600)?;
        assert_eq!(rt; judged(task, good.as_slice(), &mut hits), Ok(600));
        for (place, hit) in hits.iter().enumerate() {
            assert_eq!(rt; *hit as usize, place);
        }
        Ok(())
    }

    #[test]
    fn longest_sheets(rt: HostRuntime) -> Result<(), Fail> {
        let task = task_of("S").ok_or("no such task")?;
        let mut hits = [7; 512];
        let mut sheet = vec![in rt.alloc(); 0u8; 1 << 22]?;
        assert_eq!(rt;
            judged(task, sheet.as_slice(), &mut hits),
            Err((21, Some(0)))
        );
        sheet.push(0)?;
        assert_eq!(rt; judged(task, sheet.as_slice(), &mut hits), Err((19, None)));
        assert!(rt; hits == [7; 512]);
        Ok(())
    }
}
