// The field of 65,537 elements: whole numbers modulo that prime.
#![tactic(auto)]

ghost use Rattle.std.specs.Prelude.{◌≡◌, ◌%◌, ◌<◌};
ghost use Rattle.algebra.specs.Modular.{modular_inverse};
ghost use Rattle.counter_field.specs.Meaning.{counter_algebra, counter_meaning, counter_number, counter_symbol};

use algebra::{CodedField, Field, OwnSymbols};

const WIDTH: usize = 3;

const FIELD_NUMBER: u8 = 2;

// A symbol of the counter field: a 16-bit number, or 65,536. No larger symbol can exist.
// Not `Option<u16>`: its `None` would not say that it is a number, and which.
#[derive(Clone, Copy, PartialEq, Eq, Debug)]
pub enum Counter {
    Low(u16),
    Top,
}

impl Counter {
    // The symbol of a number's remainder.
    fn reduced(number: usize) -> Counter
        ensures value { result ≡ counter_symbol (number % 65537) }
        ensures number { counter_number result ≡ number % 65537 }
    {
        u16::try_from(number % 65_537).map_or(Counter::Top, Counter::Low)
    }
}

// The inverse, by division with remainder: factor times the number is always rest, modulo 65,537.
fn inverted(number: usize) -> usize
    ensures value { result ≡ modular_inverse 65537 (number % 65537) }
    ensures bound { result < 65537 }
{
    let mut factor = 1;
    let mut rest = number % 65_537;
    while rest > 1 {
        factor = factor * (65_537 - 65_537 / rest) % 65_537;
        rest = 65_537 % rest;
    }
    factor * rest % 65_537
}

impl Field for Counter {
    ghost size = { 65537 };

    ghost algebra = { counter_algebra };

    ghost meaning = { counter_meaning };

    ghost symbol = { counter_symbol };

    fn zero() -> Counter {
        Counter::Low(0)
    }

    fn one() -> Counter {
        Counter::Low(1)
    }

    fn alpha() -> Counter {
        Counter::Low(3)
    }

    fn order() -> usize {
        65_537
    }

    fn reach() -> usize {
        4_096
    }

    fn sum(self, other: Counter) -> Counter {
        Counter::reduced(self.number() + other.number())
    }

    fn difference(self, other: Counter) -> Counter {
        Counter::reduced(self.number() + (65_537 - other.number()))
    }

    fn product(self, other: Counter) -> Counter {
        Counter::reduced(self.number() * other.number())
    }

    fn inverse(self) -> Counter {
        Counter::reduced(inverted(self.number()))
    }

    fn numbered(number: usize) -> Option<Counter> {
        (number < 65_537).then(|| Counter::reduced(number))
    }

    fn number(self) -> usize {
        match self {
            Counter::Low(number) => usize::from(number),
            Counter::Top => 65_536,
        }
    }

    fn equals(self, other: Counter) -> bool {
        self.number() == other.number()
    }
}

impl CodedField for Counter {
    ghost width = { 3 };

    ghost kind = { 2 };

    fn code_width() -> usize {
        WIDTH
    }

    fn field_number() -> u8 {
        FIELD_NUMBER
    }
}

impl OwnSymbols for Counter {
    fn code_number(self) -> usize {
        self.number()
    }
}

#[cfg(test)]
mod tests;
