// The field of 256 elements: bytes, with XOR for the sum and polynomials modulo 0x11D for the product.
#![tactic(auto)]

ghost use Rattle.std.specs.Prelude.{◌≡◌};
ghost use Rattle.byte_field.specs.Product.{◌·◌, by_x, inverse};
ghost use Rattle.byte_field.specs.Meaning.{byte_algebra, byte_meaning, byte_symbol};

use algebra::{CodedField, Field, OwnSymbols};

const WIDTH: usize = 1;

const FIELD_NUMBER: u8 = 1;

// A symbol of the byte field: the polynomial whose coefficients are the bits.
#[derive(Clone, Copy, PartialEq, Eq, Debug)]
pub struct Byte(pub u8);

// x times a polynomial, modulo x^8 + x^4 + x^3 + x^2 + 1.
fn doubled(a: u8) -> u8
    ensures { result ≡ by_x a }
{
    if a < 128 { a * 2 } else { (a % 128 * 2) ^ 0x1D }
}

// The product, from the highest bit of b down.
#[tactic(auto, using(crate::proofs::Steps::with_bit, crate::proofs::Steps::without_bit, crate::proofs::Steps::none_yet))]
fn multiplied(a: u8, b: u8) -> u8
    ensures { result ≡ a · b }
{
    let mut sum = 0;
    for i in (0..8u32).rev() {
        sum = doubled(sum);
        if (b >> i) % 2 == 1 {
            sum ^= a;
        }
    }
    sum
}

// The power 254, as the product of seven squares.
#[tactic(auto, using(crate::proofs::Steps::one_square, crate::proofs::Steps::no_squares, crate::proofs::Steps::all_squares))]
fn inverted(a: u8) -> u8
    ensures { result ≡ inverse a }
{
    let mut square = a;
    let mut power = 1;
    for _ in 0..7u32 {
        square = multiplied(square, square);
        power = multiplied(power, square);
    }
    power
}

impl Field for Byte {
    ghost size = { 256 };

    ghost algebra = { byte_algebra };

    ghost meaning = { byte_meaning };

    ghost symbol = { byte_symbol };

    fn zero() -> Byte {
        Byte(0)
    }

    fn one() -> Byte {
        Byte(1)
    }

    fn alpha() -> Byte {
        Byte(2)
    }

    fn order() -> usize {
        256
    }

    fn reach() -> usize {
        255
    }

    fn sum(self, other: Byte) -> Byte {
        Byte(self.0 ^ other.0)
    }

    // Every byte is its own negative.
    fn difference(self, other: Byte) -> Byte {
        self.sum(other)
    }

    fn product(self, other: Byte) -> Byte {
        Byte(multiplied(self.0, other.0))
    }

    fn inverse(self) -> Byte {
        Byte(inverted(self.0))
    }

    fn numbered(number: usize) -> Option<Byte> {
        u8::try_from(number).ok().map(Byte)
    }

    fn number(self) -> usize {
        usize::from(self.0)
    }

    fn equals(self, other: Byte) -> bool {
        self.0 == other.0
    }
}

impl CodedField for Byte {
    ghost width = { 1 };

    ghost kind = { 1 };

    fn code_width() -> usize {
        WIDTH
    }

    fn field_number() -> u8 {
        FIELD_NUMBER
    }
}

impl OwnSymbols for Byte {
    fn code_number(self) -> usize {
        self.number()
    }
}

#[cfg(test)]
mod tests;
