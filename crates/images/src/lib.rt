// The image of a tray: the head, and the check of an image's bytes.
#![tactic(auto)]

ghost use Rattle.std.specs.Prelude.{◌≡◌, ◌≤◌, Some, ok_or};
ghost use Rattle.images.specs.declared.ImageRefusal.TheVariants.{UnknownField};
ghost use Rattle.images.specs.Image.{field_number, code_width, field_numbered, row_count, place_count, image_length, refusal_number, checked};
ghost use Rattle.images.specs.Layout.{ExactlyTheImages};
ghost use Rattle.images.specs.Text.{head_text};

use std::fmt;

// The field that an image's symbols belong to.
#[derive(Clone, Copy, PartialEq, Eq, Debug)]
pub enum FieldKind {
    Byte,
    Counter,
}

impl FieldKind {
    // How many bytes code one symbol.
    pub fn code_width(self) -> usize
        ensures value { result ≡ code_width self }
        ensures bound { result ≤ 3 }
    {
        match self {
            FieldKind::Byte => 1,
            FieldKind::Counter => 3,
        }
    }
}

// The field of this number, where there is one.
impl TryFrom<u8> for FieldKind {
    type Error = ImageRefusal;

    ghost try_from_gives = { λ number r. r ≡ ok_or (field_numbered number) UnknownField };

    fn try_from(number: u8) -> Result<FieldKind, ImageRefusal> {
        match number {
            1 => Ok(FieldKind::Byte),
            2 => Ok(FieldKind::Counter),
            _ => Err(ImageRefusal::UnknownField),
        }
    }
}

// The number of a field.
impl From<FieldKind> for u8 {
    ghost from_gives = { λ field number. number ≡ field_number field };

    fn from(field: FieldKind) -> u8 {
        match field {
            FieldKind::Byte => 1,
            FieldKind::Counter => 2,
        }
    }
}

// What the first six bytes of an image say.
#[derive(Clone, Copy, PartialEq, Eq, Debug)]
pub struct Head {
    pub field: FieldKind,
    pub data_rows: u8,
    pub parity_rows: u8,
    pub card_length: u8,
    pub block_length: u16,
}

impl Head {
    // Data rows and parity rows.
    pub fn rows(&self) -> usize
        ensures value { result ≡ row_count self.now }
        ensures bound { result ≤ 510 }
    {
        usize::from(self.data_rows) + usize::from(self.parity_rows)
    }

    // The places of one row, block and card.
    pub fn places(&self) -> usize
        ensures value { result ≡ place_count self.now }
        ensures bound { result ≤ 65790 }
    {
        usize::from(self.block_length) + usize::from(self.card_length)
    }

    // How many bytes an image with this head has.
    pub fn image_length(&self) -> usize
        ensures { result ≡ image_length self.now }
    {
        6 + self.rows() * self.places() * (1 + self.field.code_width())
    }
}

// The field number, k, p, n and m: n stands before m here, and after it in the head.
impl fmt::Display for Head {
    ghost output = { λ h. Some (head_text h) };

    fn fmt<W: fmt::Write>(&self, f: &mut fmt::Formatter<W>) -> fmt::Result {
        let Head {
            field,
            data_rows,
            parity_rows,
            card_length,
            block_length,
        } = *self;
        let field = u8::from(field);
        write!(
            f,
            "tray {field} {data_rows} {parity_rows} {block_length} {card_length}"
        )
    }
}

// Why bytes are no image.
#[derive(Clone, Copy, PartialEq, Eq, Debug)]
pub enum ImageRefusal {
    TooShort,
    UnknownField,
    WrongLength,
}

impl ImageRefusal {
    // The number that callers and reports have for it. A method, and no `From`: refusals of a call, an image and an input are all asked alike, and one of them
    // is asked its layer too.
    pub fn number(self) -> u8
        ensures { result ≡ refusal_number self }
    {
        match self {
            ImageRefusal::TooShort => 21,
            ImageRefusal::UnknownField => 22,
            ImageRefusal::WrongLength => 23,
        }
    }
}

// The head of an image, or why the bytes are none.
#[tactic(auto, using(crate::proofs::Exact::exactly))]
pub fn check(bytes: &[u8]) -> Result<Head, ImageRefusal>
    ensures value { result ≡ checked bytes.now }
    ensures exact { ExactlyTheImages bytes.now result }
{
    let [number, data_rows, parity_rows, card_length, high, low, ..] = *bytes else {
        return Err(ImageRefusal::TooShort);
    };
    let head = Head {
        field: FieldKind::try_from(number)?,
        data_rows,
        parity_rows,
        card_length,
        block_length: u16::from_be_bytes([high, low]),
    };
    if bytes.len() != head.image_length() {
        return Err(ImageRefusal::WrongLength);
    }
    Ok(head)
}

#[cfg(test)]
mod tests;
