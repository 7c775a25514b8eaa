// The receipt as text, without the last line's end.

ghost use Rattle.std.specs.Fmt.{WritesOnOk};
ghost use Rattle.std.specs.Prelude.{Some, Ok};
ghost use Rattle.reports.specs.Text.{card_text, cards_text, receipt_text};

use crate::{Cards, Receipt};
use std::fmt;

// A row and its card.
fn write_card<W: fmt::Write>(
    f: &mut fmt::Formatter<W>,
    row: usize,
    numbers: &[usize],
) -> fmt::Result
    ensures { WritesOnOk W.write_str_gives f.old result (card_text row numbers.now) f.new }
{
    write!(f, "row {row} card")?;
    for number in numbers {
        write!(f, " {number}")?;
    }
    Ok(())
}

// A line for each row, behind the end of the line before.
impl fmt::Display for Cards {
    ghost output = { λ t. Some (cards_text t) };

    fn fmt<W: fmt::Write>(&self, f: &mut fmt::Formatter<W>) -> fmt::Result {
        // By the row's number, which is printed and by which `numbers_of` looks up.
        for row in 0..self.rows.min(68) {
            writeln!(f)?;
            write_card(f, row, self.numbers_of(row))?;
        }
        Ok(())
    }
}

// The head's line, and below it what intake answered.
impl fmt::Display for Receipt {
    ghost output = { λ r. Some (receipt_text (Ok r)) };

    fn fmt<W: fmt::Write>(&self, f: &mut fmt::Formatter<W>) -> fmt::Result {
        writeln!(f, "{}", self.head)?;
        match &self.intake {
            Ok(cards) => write!(f, "intake taken{cards}"),
            Err(refusal) => write!(f, "intake refused {refusal}"),
        }
    }
}
