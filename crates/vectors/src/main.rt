// Runs published tables through both fields, and prints for each how many of its lines agree.
#![tactic(auto)]

use algebra::Field;
use byte_field::Byte;
use counter_field::Counter;
use std::fs;

fn inverse_is<F: Field>(number: usize, inverse: usize) -> bool {
    F::numbered(number).is_some_and(|x| x.inverse().number() == inverse)
}

// What a line of a table says, by its number, counted from 0, and the numbers on it.

// Line i has the number of alpha^i.
fn powers<F: Field>(line: usize, numbers: &[usize]) -> bool {
    match numbers {
        [power] => algebra::power_of_alpha::<F>(line).number() == *power,
        _ => false,
    }
}

// Line v has the i with alpha^i = v; line 0 has 0 and means nothing.
fn logs<F: Field>(line: usize, numbers: &[usize]) -> bool {
    match numbers {
        [exponent] if line == 0 => *exponent == 0,
        [exponent] => algebra::power_of_alpha::<F>(*exponent).number() == line,
        _ => false,
    }
}

// Line v has the inverse of v.
fn inverses<F: Field>(line: usize, numbers: &[usize]) -> bool {
    match numbers {
        [inverse] => inverse_is::<F>(line, *inverse),
        _ => false,
    }
}

// A number and its inverse. Tables of pairs have another pattern than tables by line.
fn inverse_pairs<F: Field>(_line: usize, numbers: &[usize]) -> bool {
    match numbers {
        [number, inverse] => inverse_is::<F>(*number, *inverse),
        _ => false,
    }
}

// Two numbers and their product.
fn products<F: Field>(_line: usize, numbers: &[usize]) -> bool {
    let [left, right, product] = numbers else {
        return false;
    };
    match (F::numbered(*left), F::numbered(*right)) {
        (Some(x), Some(y)) => x.product(y).number() == *product,
        _ => false,
    }
}

// The numbers on a line of a table.
fn numbers_on(rt: &HostRuntime, line: &str) -> anyhow::Result<Vec<usize>> {
    let mut numbers = Vec::new(rt.alloc());
    for word in line.split_whitespace() {
        numbers.push(word.parse::<usize>()?)?;
    }
    Ok(numbers)
}

fn show<A: Fn(usize, &[usize]) -> bool + Drop>(
    rt: &HostRuntime,
    name: &str,
    agrees: A,
) -> anyhow::Result<()>
    requires { A.IsAlwaysCallable agrees }
{
    let text = fs::read_to_string(rt, name)?;
    let mut agreed: usize = 0;
    let mut lines: usize = 0;
    // One line at a time: the numbers of all lines take several times the text's memory.
    for (index, line) in text.lines().enumerate() {
        if agrees(index, &numbers_on(rt, line)?) {
            agreed = agreed.saturating_add(1);
        }
        lines = index.saturating_add(1);
    }
    println!(rt; "{name} {agreed} of {lines} agree")?;
    Ok(())
}

fn run(rt: &HostRuntime) -> anyhow::Result<()> {
    show(rt, "byte-antilog.txt", powers::<Byte>)?;
    show(rt, "byte-log.txt", logs::<Byte>)?;
    show(rt, "byte-inverse.txt", inverses::<Byte>)?;
    show(rt, "byte-products.txt", products::<Byte>)?;
    show(rt, "counter-powers.txt", powers::<Counter>)?;
    show(rt, "counter-inverse.txt", inverse_pairs::<Counter>)?;
    show(rt, "counter-products.txt", products::<Counter>)
}

fn main(rt: HostRuntime) -> anyhow::Result<()> {
    run(&rt)
}
