// Fields, by what their operations mean, and the two theorems that cards and parity rest on.
#![tactic(auto)]

ghost use Rattle.std.specs.Prelude.{◌≡◌, ℕ, ◌^◌, ◌≤◌, length, if◌then◌else◌, Some, None, ◌==◌, nat_eq, nat_lt};
ghost use Rattle.std.specs.Option.{option_map};
ghost use Rattle.algebra.specs.Algebra.{Field as Algebra, minus, numbered, power};
ghost use Rattle.algebra.specs.Below.{Below};
ghost use Rattle.algebra.specs.Code.{code, coded, decoded, encode_answer};
ghost use Rattle.algebra.specs.Theorems.{SignaturesFindChanges, ExactlyOneSolution};

// A field's symbols, by the elements that they mean: a symbol is what a program holds, and an element is one of the
// numbers below size. The laws stand in the algebra, so each implementation owes them.
pub trait Field: Copy {
    ghost size: { ℕ };

    ghost algebra: { Algebra (Below size) };

    ghost meaning: { Self → Below size };

    // The symbol of a number.
    ghost symbol: { ℕ → Self };

    fn zero() -> Self
        ensures { meaning result ≡ algebra.zer };

    fn one() -> Self
        ensures { meaning result ≡ algebra.one };

    // The element whose powers weigh the places of a block.
    fn alpha() -> Self
        ensures { meaning result ≡ algebra.α };

    // How many elements there are.
    fn order() -> usize
        ensures { result ≡ algebra.size };

    // How many powers of alpha are known to differ.
    fn reach() -> usize
        ensures { result ≡ algebra.reach };

    fn sum(self, other: Self) -> Self
        ensures { meaning result ≡ algebra.add (meaning self) (meaning other) };

    fn difference(self, other: Self) -> Self
        ensures { meaning result ≡ minus algebra (meaning self) (meaning other) };

    fn product(self, other: Self) -> Self
        ensures { meaning result ≡ algebra.mul (meaning self) (meaning other) };

    // The inverse; zero for zero.
    fn inverse(self) -> Self
        ensures { meaning result ≡ algebra.inv (meaning self) };

    // The element of a number, where there is one.
    fn numbered(number: usize) -> Option<Self>
        ensures value { result ≡ (if nat_lt number algebra.size then Some (symbol number) else None) }
        ensures meant { option_map meaning result ≡ numbered algebra number };

    fn number(self) -> usize
        ensures { result ≡ algebra.number (meaning self) };

    // Not a derived `==`, which compares symbols: a field may have several for one element.
    fn equals(self, other: Self) -> bool
        ensures { result ≡ (algebra.number (meaning self) == algebra.number (meaning other)) };
}

// alpha multiplied so many times.
pub fn power_of_alpha<F: Field>(exponent: usize) -> F
    ensures { F.Field.meaning result ≡ power F.Field.algebra F.Field.algebra.α exponent }
{
    let mut power = F::one();
    for _ in 0..exponent {
        power = F::alpha().product(power);
    }
    power
}

// Writes a number in as many bytes as there are, the highest first. What does not fit is left out.
#[tactic(auto, using(std::proofs::lemmas::Grind::common_steps, crate::proofs::Codes::one_more))]
pub fn write_code(number: usize, into: &mut [u8])
    ensures { into.new ≡ code (length into.old) number }
{
    let mut rest = number;
    // By index: nothing is known of what a walk over `iter_mut().rev()` has written, so that it could not be proved, and `to_be_bytes` has always eight bytes.
    for i in (0..into.len()).rev() {
        into[i] = (rest % 256) as u8;
        rest /= 256;
    }
}

// The number that at most seven bytes code.
pub fn read_code(from: &[u8]) -> Option<usize>
    ensures { result ≡ (if nat_lt 7 (length from.now) then None else Some (coded from.now)) }
{
    if from.len() > 7 {
        return None;
    }
    let mut number: usize = 0;
    for byte in from {
        number = number * 256 + usize::from(*byte);
    }
    Some(number)
}

// Why a code was not written: the bytes are not as many as a code has.
#[derive(Clone, Copy, PartialEq, Eq, Debug)]
pub struct WrongLength;

// A field whose elements have a byte code: their numbers in so many bytes, the highest first.
pub trait CodedField: Field {
    // The bytes of a code, and the number that names the field in an image.
    ghost width: { ℕ };

    ghost kind: { ℕ };

    // How many bytes a code has: enough for every element, and at most seven.
    fn code_width() -> usize
        ensures value { result ≡ width }
        ensures narrow { width ≤ 7 }
        ensures roomy { Self.Field.algebra.size ≤ 256 ^ width };

    // The number that names the field in an image.
    fn field_number() -> u8
        ensures { result ≡ kind };

    // Writes the code. Bytes of another length than the code's are refused and left alone.
    fn encode(self, into: &mut [u8]) -> Result<(), WrongLength>
        ensures answer { result ≡ encode_answer width (length into.old) }
        ensures after { into.new ≡ (if nat_eq (length into.old) width then code width (Self.Field.algebra.number (Self.Field.meaning self)) else into.old) }
    {
        if into.len() != Self::code_width() {
            return Err(WrongLength);
        }
        write_code(self.number(), into);
        Ok(())
    }

    // The element that the bytes code, where they code one.
    fn decode(from: &[u8]) -> Option<Self>
        ensures value { result ≡ option_map Self.Field.symbol (decoded width Self.Field.algebra.size from.now) }
        ensures meant { option_map (λ x. Self.Field.algebra.number (Self.Field.meaning x)) result ≡ decoded width Self.Field.algebra.size from.now }
    {
        if from.len() != Self::code_width() {
            return None;
        }
        Self::numbered(read_code(from)?)
    }
}

// A coded field with one symbol for each element, so that a symbol that was written reads back as it was.
pub trait OwnSymbols: CodedField {
    // The number of this symbol, which no other symbol has.
    fn code_number(self) -> usize
        ensures value { result ≡ Self.Field.algebra.number (Self.Field.meaning self) }
        ensures own { Self.Field.symbol result ≡ self };
}

// Signatures over the first powers of alpha find as many changed symbols as there are signatures, over every field.
pub fn signatures_find_changes()
    ensures { (q : ℕ) (F : Algebra (Below q)) → SignaturesFindChanges F }
{}

// Lost data rows follow from as many parity rows, in exactly one way, over every field.
pub fn exactly_one_solution()
    ensures { (q : ℕ) (F : Algebra (Below q)) → ExactlyOneSolution F }
{}
