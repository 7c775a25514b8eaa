// What takein answers to its input, as a value and as text.
#![tactic(auto)]

ghost use Rattle.std.specs.Prelude.{◌≡◌, Some, Err};
ghost use Rattle.reports.specs.declared.InputRefusal.TheVariants.{Image};
ghost use Rattle.reports.specs.Report.{input_refusal_number, reported};
ghost use Rattle.reports.specs.Text.{report_text};

mod cards;
mod receipt;
mod text;

pub use cards::{Card, Cards};
use images::{Head, ImageRefusal};
pub use receipt::{Receipt, receive};
use std::fmt;

// The most bytes of input that are looked at.
pub const INPUT_LIMIT: usize = 65_536;

// Why an input is no image to take in.
#[derive(Clone, Copy, PartialEq, Eq, Debug)]
pub enum InputRefusal {
    TooLong,
    Image(ImageRefusal),
}

impl InputRefusal {
    // The number that the rules give it. A method, and no `From`: the refusals of a call, an image and an input are all asked for it in one way.
    pub fn number(self) -> u8
        ensures { result ≡ input_refusal_number self }
    {
        match self {
            InputRefusal::TooLong => 24,
            InputRefusal::Image(refusal) => refusal.number(),
        }
    }
}

impl From<ImageRefusal> for InputRefusal {
    ghost from_gives = { λ refusal r. r ≡ Image refusal };

    fn from(refusal: ImageRefusal) -> InputRefusal {
        InputRefusal::Image(refusal)
    }
}

impl fmt::Display for InputRefusal {
    ghost output = { λ r. Some (report_text (Err r)) };

    fn fmt<W: fmt::Write>(&self, f: &mut fmt::Formatter<W>) -> fmt::Result {
        write!(f, "image refused {}", self.number())
    }
}

// The report on an input: the head of an image, or why it is none.
pub fn answer(bytes: &[u8]) -> Result<Head, InputRefusal>
    ensures { result ≡ reported bytes.now }
{
    if bytes.len() > INPUT_LIMIT {
        return Err(InputRefusal::TooLong);
    }
    Ok(images::check(bytes)?)
}

#[cfg(test)]
mod tests;
