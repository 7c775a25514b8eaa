// Shelves over images in lent bytes: generic functions over any coded field, and a thin type over them, with a name for each field.
// The clauses name four facts of the field one by one, since a definition takes values and no traits: a trait for that term alone would be one bound more at
// each function.
#![tactic(auto)]

ghost use Rattle.std.specs.Prelude.{◌≡◌};
ghost use Rattle.image_shelves.specs.Layout.{head_if_own, image_spot, image_contents, put_at, SpotWithin};
ghost use Rattle.shelves.specs.Contents.{get_answer, put_answer, after_put};

use algebra::CodedField;
use images::Head;
use shelves::{Got, Outside};

mod image;

pub use image::{ByteImage, CounterImage, ImageShelf};

// Where the mark of a place lies in the bytes, and where its code begins.
#[derive(Clone, Copy)]
pub struct Spot {
    mark: usize,
    code: usize,
}

// The head, where the bytes are an image of the field.
fn own_head<F: CodedField>(bytes: &[u8]) -> Option<Head>
    ensures { result ≡ head_if_own F.CodedField.kind F.CodedField.width bytes.now }
{
    images::check(bytes).ok().filter(|head| {
        u8::from(head.field) == F::field_number() && head.field.code_width() == F::code_width()
    })
}

// This and the next are a line each: one function that takes the head's method would be no shorter.
pub fn image_rows<F: CodedField>(bytes: &[u8]) -> usize
    ensures { result ≡ (image_contents F.CodedField.kind F.CodedField.width F.Field.algebra.size F.Field.symbol bytes.now).rows }
{
    own_head::<F>(bytes).map_or(0, |head| head.rows())
}

pub fn image_places<F: CodedField>(bytes: &[u8]) -> usize
    ensures { result ≡ (image_contents F.CodedField.kind F.CodedField.width F.Field.algebra.size F.Field.symbol bytes.now).places }
{
    own_head::<F>(bytes).map_or(0, |head| head.places())
}

fn find_spot<F: CodedField>(bytes: &[u8], row: usize, place: usize) -> Option<Spot>
    ensures is { result ≡ image_spot F.CodedField.kind F.CodedField.width bytes.now row place }
    ensures within { SpotWithin F.CodedField.width bytes.now result }
{
    let head = own_head::<F>(bytes)?;
    let rows = head.rows();
    let places = head.places();
    if row >= rows || place >= places {
        return None;
    }
    let index = row * places + place;
    Some(Spot {
        mark: 6 + index,
        code: 6 + rows * places + index * F::code_width(),
    })
}

// Inlined, as the shelf's `get` is: a loop over the places of a row then reads the head once.
#[inline(always)]
pub fn image_get<F: CodedField>(bytes: &[u8], row: usize, place: usize) -> Got<F>
    ensures { result ≡ get_answer (image_contents F.CodedField.kind F.CodedField.width F.Field.algebra.size F.Field.symbol bytes.now) row place }
{
    match find_spot::<F>(bytes, row, place) {
        None => Got::Outside,
        Some(spot) if bytes[spot.mark] == 1 => {
            let from = spot.code;
            F::decode(&bytes[from..from + F::code_width()]).map_or(Got::Hole, Got::Symbol)
        }
        Some(_) => Got::Hole,
    }
}

pub fn image_put<F: CodedField>(
    bytes: &mut [u8],
    row: usize,
    place: usize,
    symbol: F,
) -> Result<(), Outside>
    ensures answer { result ≡ put_answer (image_contents F.CodedField.kind F.CodedField.width F.Field.algebra.size F.Field.symbol bytes.old) row place }
    ensures after { image_contents F.CodedField.kind F.CodedField.width F.Field.algebra.size F.Field.symbol bytes.new ≡ after_put (image_contents F.CodedField.kind F.CodedField.width F.Field.algebra.size F.Field.symbol bytes.old) row place (F.Field.symbol (F.Field.algebra.number (F.Field.meaning symbol))) }
    ensures stored { bytes.new ≡ put_at F.CodedField.width (image_spot F.CodedField.kind F.CodedField.width bytes.old row place) (F.Field.algebra.number (F.Field.meaning symbol)) bytes.old }
{
    let spot = find_spot::<F>(bytes, row, place).ok_or(Outside)?;
    bytes[spot.mark] = 1;
    let from = spot.code;
    let _ = symbol.encode(&mut bytes[from..from + F::code_width()]);
    Ok(())
}

#[cfg(test)]
mod tests;
