// A shelf over an image, of any coded field with one symbol for each element.
ghost use Rattle.std.specs.Prelude.{◌≡◌};
ghost use Rattle.shelves.specs.Contents.{put_answer, after_put};
ghost use Rattle.image_shelves.specs.Fields.{Lent, Stored, image_stores};
ghost use Rattle.image_shelves.specs.Layout.{image_contents};

use crate::{image_get, image_places, image_put, image_rows};
use algebra::{CodedField, OwnSymbols};
use byte_field::Byte;
use counter_field::Counter;
use shelves::{Got, Outside, Shelf};
use std::marker::PhantomData;

// Over bytes that are no image of the field there are no rows and no places.
#[derive(Drop)]
pub struct ImageShelf<'a, F> {
    bytes: &'a mut [u8],
    field: PhantomData<F>,
}

pub type ByteImage<'a> = ImageShelf<'a, Byte>;

pub type CounterImage<'a> = ImageShelf<'a, Counter>;

impl<'a, F: CodedField> ImageShelf<'a, F> {
    pub fn over(bytes: &'a mut [u8]) -> ImageShelf<'a, F>
        ensures contents { image_contents F.CodedField.kind F.CodedField.width F.Field.algebra.size F.Field.symbol result.bytes.now ≡ image_contents F.CodedField.kind F.CodedField.width F.Field.algebra.size F.Field.symbol bytes.old }
        ensures lent { Lent bytes.entry result.bytes }
    {
        ImageShelf {
            bytes,
            field: PhantomData,
        }
    }

    // Gives the bytes back, as the calls left them.
    pub fn into_bytes(self) -> &'a mut [u8]
        ensures { result ≡ self.entry.bytes }
    {
        self.bytes
    }
}

impl<'a, F: OwnSymbols> Shelf for ImageShelf<'a, F> {
    type Symbol = F;

    ghost contents = { λ s. image_contents F.CodedField.kind F.CodedField.width F.Field.algebra.size F.Field.symbol s.bytes.now };

    ghost stores = { image_stores F.CodedField.kind F.CodedField.width (λ symbol. F.Field.algebra.number (F.Field.meaning symbol)) };

    fn rows(&self) -> usize {
        image_rows::<F>(self.bytes)
    }

    fn places(&self) -> usize {
        image_places::<F>(self.bytes)
    }

    #[inline(always)]
    fn get(&self, row: usize, place: usize) -> Got<F> {
        image_get::<F>(self.bytes, row, place)
    }

    fn put(&mut self, row: usize, place: usize, symbol: F) -> Result<(), Outside>
        ensures answer { result ≡ put_answer (image_contents F.CodedField.kind F.CodedField.width F.Field.algebra.size F.Field.symbol self.old.bytes.now) row place }
        ensures after { image_contents F.CodedField.kind F.CodedField.width F.Field.algebra.size F.Field.symbol self.new.bytes.now ≡ after_put (image_contents F.CodedField.kind F.CodedField.width F.Field.algebra.size F.Field.symbol self.old.bytes.now) row place symbol }
        ensures stored { Stored F.CodedField.kind F.CodedField.width self.old.bytes row place (F.Field.algebra.number (F.Field.meaning symbol)) self.new.bytes }
    {
        // Called for its promise alone: the symbol that the image then holds is the one that was given.
        let _ = symbol.code_number();
        image_put(self.bytes, row, place, symbol)
    }
}
