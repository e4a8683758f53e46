//! What the judge answers to a sheet, as text.
use crate::assignments::Task;
use sheets::refusal::SheetRefusal;
use std::alloc::{AllocError, Global};
use std::fmt;

/// What the judge answers to a sheet. Not a `Result`: `Display` needs a type of the program's own, and one around a `Result` has more words.
#[derive(Drop)]
pub(crate) enum Verdict {
    /// It passes, with these hits: the indices joined by commas, or `-` where there are none.
    Passes(String),
    /// It does not pass.
    Refused(SheetRefusal),
}

/// A verdict as the table writes it: `passes:3`, `27@68` or `19`. Nothing compares it.
#[derive(Clone, Copy)]
struct Short<'a>(&'a Verdict);

/// The indices joined by commas, or `-` where there are none.
fn joined(heap: Global, hits: &[u32]) -> Result<String, AllocError> {
    if hits.is_empty() {
        return String::from_str(heap, "-");
    }
    let mut text = String::new(heap);
    for hit in hits {
        if !text.is_empty() {
            text.push(',')?;
        }
        write!(text, "{hit}")?;
    }
    Ok(text)
}

impl Verdict {
    /// What the judge answers to the sheet. At most 512 hits are told.
    pub(crate) fn of(heap: Global, task: Task, sheet: &[u8]) -> Result<Verdict, AllocError> {
        let mut hits = [0; 512];
        match task.judge(sheet, &mut hits) {
            Ok(count) => {
                let told = (count as usize).min(hits.len());
                Ok(Verdict::Passes(joined(heap, &hits[0..told])?))
            }
            Err(refusal) => Ok(Verdict::Refused(refusal)),
        }
    }

    /// Whether the table writes the verdict so.
    pub(crate) fn reads(&self, heap: Global, text: &str) -> Result<bool, AllocError> {
        let short = Short(self).to_string(heap)?;
        Ok(short.as_str() == text)
    }

    /// Writes the verdict, with these words before the hits and before a byte.
    fn write<W: fmt::Write>(
        &self,
        f: &mut fmt::Formatter<W>,
        passes: &str,
        at: &str,
    ) -> fmt::Result {
        match self {
            Verdict::Passes(hits) => write!(f, "{passes}{hits}"),
            Verdict::Refused(refusal) => {
                let number = refusal.number();
                match refusal.byte() {
                    Some(byte) => write!(f, "{number}{at}{byte}"),
                    None => write!(f, "{number}"),
                }
            }
        }
    }
}

impl fmt::Display for Verdict {
    fn fmt<W: fmt::Write>(&self, f: &mut fmt::Formatter<W>) -> fmt::Result {
        self.write(f, "passes, hits ", " at byte ")
    }
}

impl fmt::Display for Short<'_> {
    fn fmt<W: fmt::Write>(&self, f: &mut fmt::Formatter<W>) -> fmt::Result {
        self.0.write(f, "passes:", "@")
    }
}
