// Takes the tray of an input in, where the input is an image.

ghost use Rattle.std.specs.Prelude.{◌≡◌};
ghost use Rattle.image_shelves.specs.Layout.{image_contents};
ghost use Rattle.rules.specs.Views.{seen, seen_contents};
ghost use Rattle.reports.specs.Cards.{OutcomeOf};
ghost use Rattle.reports.specs.Exact.{ReceiptExact};
ghost use Rattle.reports.specs.Receipt.{head_sizes, ImageOutcome, BytesLeft, ImageLeft, Received, OnlyReceipt, InputLeft};

use crate::cards::take_in;
use crate::{Cards, InputRefusal, answer};
use algebra::OwnSymbols;
use byte_field::Byte;
use counter_field::Counter;
use image_shelves::ImageShelf;
use images::{FieldKind, Head};
use rules::{Refusal, Sizes};

// What an image says of its tray, and what intake answered: the cards that stand then, or why it was refused.
#[derive(PartialEq, Eq, Debug, Drop)]
pub struct Receipt {
    pub head: Head,
    pub intake: Result<Cards, Refusal>,
}

// The sizes that an image's head says. Both types are of other crates, so it is no `From`.
fn sizes_of(head: &Head) -> Sizes
    ensures { result ≡ head_sizes head.now }
{
    Sizes {
        data_rows: usize::from(head.data_rows),
        parity_rows: usize::from(head.parity_rows),
        block_length: usize::from(head.block_length),
        card_length: usize::from(head.card_length),
    }
}

// Takes in a new tray of these sizes over an image's bytes, and gives them back beside the cards: no proof knows what a slice ends as that lies in a struct
// in a struct.
fn take_in_bytes<'a, F: OwnSymbols>(
    bytes: &'a mut [u8],
    sizes: Sizes,
) -> (Result<Cards, Refusal>, &'a mut [u8])
    ensures same { result.1.ghost_name ≡ bytes.entry.ghost_name }
    ensures outcome { OutcomeOf F.Field.algebra (seen F.Field.meaning sizes (image_contents F.CodedField.kind F.CodedField.width F.Field.algebra.size F.Field.symbol bytes.entry.now)) result.0 }
    ensures left { BytesLeft F.Field.algebra F.CodedField.kind F.CodedField.width (λ bytes. seen_contents F.Field.meaning (image_contents F.CodedField.kind F.CodedField.width F.Field.algebra.size F.Field.symbol bytes)) sizes bytes.entry.now result.0 result.1.now }
{
    let (intake, shelf) = take_in(ImageShelf::<F>::over(bytes), sizes);
    (intake, shelf.into_bytes())
}

// Takes in a new tray of these sizes over the image shelf of a field, which is known only from the image.
fn take_in_image(field: FieldKind, sizes: Sizes, bytes: &mut [u8]) -> Result<Cards, Refusal>
    ensures outcome { ImageOutcome field sizes bytes.old result }
    ensures left { ImageLeft field sizes bytes.old result bytes.new }
{
    match field {
        FieldKind::Byte => take_in_bytes::<Byte>(bytes, sizes).0,
        FieldKind::Counter => take_in_bytes::<Counter>(bytes, sizes).0,
    }
}

// The receipt of an input. The tray is made over these bytes: where it is taken in, its cards are put there.
#[tactic(auto, using(crate::proofs::Exact::receipt_exact))]
pub fn receive(bytes: &mut [u8]) -> Result<Receipt, InputRefusal>
    ensures value { Received bytes.old result }
    ensures only { OnlyReceipt bytes.old result }
    ensures exact { ReceiptExact bytes.old result }
    ensures left { InputLeft bytes.old bytes.new result }
{
    let head = answer(bytes)?;
    let intake = take_in_image(head.field, sizes_of(&head), bytes);
    Ok(Receipt { head, intake })
}
