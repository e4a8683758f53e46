ghost use Rattle.std.specs.Prelude.{◌≡◌};
ghost use Rattle.reports.specs.Lines.{numbers_of, exactly, padded, ended as shape_at_end, shape_of, order_of, reading};
ghost use Rattle.reports.specs.declared.order.Kind.TheVariants.{Straight, Bowed};
ghost use Rattle.std.specs.Option.{option_map};

use crate::fields::Fields;
use crate::order::{Kind, MOST_LISTED, Mode, Order, Shape};
use crate::refusal::LineRefusal;

/// The most bytes that a line may have.
const LONGEST_LINE: usize = 1024;

/// A shape, where no field is left.
fn ended(shape: Shape, fields: Fields<'_>) -> Option<Shape>
    ensures is_the_shape_where_nothing_follows { result ≡ shape_at_end shape fields.entry }
{
    fields.is_empty().then_some(shape)
}

/// The slope and the offset of a straight curve, and nothing after them.
fn read_straight(mut fields: Fields<'_>) -> Option<Shape>
    ensures is_the_straight_shape { result ≡ shape_of Straight 0 fields.entry }
{
    let slope = fields.number()?;
    let offset = fields.number()?;
    ended(Shape::Straight { slope, offset }, fields)
}

/// The coefficients of a bowed curve, of which the last two may be negative, and nothing after them.
fn read_bowed(mut fields: Fields<'_>) -> Option<Shape>
    ensures is_the_bowed_shape { result ≡ shape_of Bowed 0 fields.entry }
{
    let c0 = fields.number()?;
    let c1 = fields.signed()?;
    let c2 = fields.signed()?;
    ended(Shape::Bowed { c0, c1, c2 }, fields)
}

/// The values of a listed curve, where there are as many as the count says. Those past the kept places are read over.
fn read_values(mut fields: Fields<'_>, count: u64) -> Option<[u64; MOST_LISTED]>
    ensures are_the_values_left { result ≡ option_map (padded 32) (exactly count (numbers_of fields.entry)) }
{
    let mut values = [0; MOST_LISTED];
    for i in 0..count {
        let value = fields.number()?;
        // By index, since the contract of `get_mut` says nothing of the array after a write.
        if i < MOST_LISTED as u64 {
            values[i as usize] = value;
        }
    }
    fields.is_empty().then_some(values)
}

/// The last fields of a line, by the kind of its curve.
fn read_shape(kind: Kind, count: u64, fields: Fields<'_>) -> Option<Shape>
    ensures is_the_shape_of_the_kind { result ≡ shape_of kind count fields.entry }
{
    match kind {
        Kind::Straight => read_straight(fields),
        Kind::Bowed => read_bowed(fields),
        Kind::Listed => {
            let values = read_values(fields, count)?;
            Some(Shape::Listed { values })
        }
    }
}

/// The numbers of a line, after the letters of its kind and mode.
fn read_order(kind: Kind, mode: Mode, mut fields: Fields<'_>) -> Option<Order>
    ensures is_the_order_of_the_fields { result ≡ order_of kind mode fields.entry }
{
    let modulus = fields.number()?;
    let count = fields.number()?;
    let half_width = fields.number()?;
    let shape = read_shape(kind, count, fields)?;
    Some(Order {
        mode,
        modulus,
        count,
        half_width,
        shape,
    })
}

/// What a line of input, without its end, asks for. Functions and no `TryFrom`: bytes are not an order, they ask for one.
pub fn read(line: &[u8]) -> Result<Order, LineRefusal>
    ensures is_what_the_line_says { result ≡ reading line.now }
{
    if line.len() > LONGEST_LINE {
        return Err(LineRefusal::Letter);
    }
    let mut fields = Fields::of(line);
    let kind = Kind::try_from(fields.next().unwrap_or(&[]))?;
    let mode = Mode::try_from(fields.next().unwrap_or(&[]))?;
    read_order(kind, mode, fields).ok_or(LineRefusal::Field)
}
