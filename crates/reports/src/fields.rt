ghost use Rattle.std.specs.Prelude.{◌≡◌, ◌==◌, length, position};
ghost use Rattle.reports.specs.Lines.{fields, number as number_first, signed_number};
ghost use Rattle.std.specs.Option.{option_map};

use crate::numbers::{read_number, read_signed};
use std::marker::Model;

/// The fields of a line that are left. Not std's `split`, whose law is that of a whole run: the reader's clauses speak of the fields left after
/// each one.
#[derive(Drop)]
pub(crate) struct Fields<'a> {
    /// The line from the next field on, where one is left.
    rest: Option<&'a [u8]>,
}

impl<'a> Model for Fields<'a> {
    ghost use Rattle.reports.specs.Rest.{fields_after};
    ghost use Rattle.std.specs.Option.{option_map};
    ghost use Rattle.std.specs.Prelude.{ℕ, List};

    ghost Value = { List (List ℕ) };

    ghost view = { λ f. fields_after (option_map (λ x. x.now) f.rest) };
}

/// The place of the first comma.
fn comma(text: &[u8]) -> Option<usize>
    ensures is_the_first_place { result ≡ position (λ c. c == 44) text.now }
{
    text.iter().position(|byte| *byte == b',')
}

impl<'a> Iterator for Fields<'a> {
    ghost use Rattle.std.specs.Iterator.{YieldsFirstRef, item_count};

    type Item = &'a [u8];

    ghost next_gives = { YieldsFirstRef (λ s. s) };

    ghost remaining = { item_count (λ s. s) };

    fn next(&mut self) -> Option<&'a [u8]> {
        let text = self.rest?;
        match comma(text) {
            Some(place) => {
                self.rest = Some(&text[place + 1..]);
                Some(&text[..place])
            }
            None => {
                self.rest = None;
                Some(text)
            }
        }
    }
}

impl<'a> Fields<'a> {
    /// The fields of a line.
    pub(crate) fn of(line: &'a [u8]) -> Fields<'a>
        ensures are_the_fields { result ≡ fields line.now }
    {
        Fields { rest: Some(line) }
    }

    /// Whether no field is left.
    pub(crate) fn is_empty(&self) -> bool
        ensures tells_whether_none_is_left { result ≡ (length self.now == 0) }
    {
        self.rest.is_none()
    }

    // Two methods and not one over the reader of a field: each is one line.

    /// The number of the next field.
    pub(crate) fn number(&mut self) -> Option<u64>
        ensures is_the_number_with_the_rest { option_map (λ n. (n, self.new)) result ≡ number_first self.old }
    {
        read_number(self.next()?)
    }

    /// The number of the next field, which may be negative.
    pub(crate) fn signed(&mut self) -> Option<i64>
        ensures is_the_signed_number_with_the_rest { option_map (λ n. (n, self.new)) result ≡ signed_number self.old }
    {
        read_signed(self.next()?)
    }
}
