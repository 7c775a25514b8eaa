use super::*;
use std::alloc::Global;
use std::process::Abort;
use std::test::Fail;

// These bytes, with zeros up to the length. The crate of images has the same for its tests: a test module cannot be used from another crate.
fn input(heap: Global, start: &[u8], length: usize) -> Result<Vec<u8>, Fail> {
    let mut bytes = Vec::from_slice(heap, start)?;
    bytes.resize(length, 0)?;
    Ok(bytes)
}

// Whether the text of an answer is this, whichever it is.
fn says<T: fmt::Display + Drop>(
    rt: &impl Abort,
    heap: Global,
    answer: Result<T, InputRefusal>,
    text: &str,
) -> Result<(), Fail> {
    let said = match answer {
        Ok(value) => value.to_string(heap)?,
        Err(refusal) => refusal.to_string(heap)?,
    };
    assert_eq!(rt; said.as_str(), text);
    Ok(())
}

#[test]
fn each_refusal_by_its_number(rt: HostRuntime) -> Result<(), Fail> {
    let heap = rt.alloc();
    says(
        &rt,
        heap,
        answer(&input(heap, &[1, 2, 2, 2, 0], 5)?),
        "image refused 21",
    )?;
    says(
        &rt,
        heap,
        answer(&input(heap, &[3, 2, 2, 2, 0, 3], 46)?),
        "image refused 22",
    )?;
    says(
        &rt,
        heap,
        answer(&input(heap, &[1, 2, 2, 2, 0, 3], 45)?),
        "image refused 23",
    )
}

#[test]
fn the_limit_of_the_input(rt: HostRuntime) -> Result<(), Fail> {
    let heap = rt.alloc();
    says(
        &rt,
        heap,
        answer(&input(heap, &[1, 3, 2, 2, 25, 151], 65_536)?),
        "tray 1 3 2 6551 2",
    )?;
    says(
        &rt,
        heap,
        answer(&input(heap, &[1, 3, 2, 2, 25, 151], 65_537)?),
        "image refused 24",
    )?;
    says(
        &rt,
        heap,
        answer(&input(heap, &[], 65_536)?),
        "image refused 22",
    )?;
    says(
        &rt,
        heap,
        answer(&input(heap, &[], 65_537)?),
        "image refused 24",
    )
}

#[test]
fn sizes_in_the_order_of_the_line(rt: HostRuntime) -> Result<(), Fail> {
    let heap = rt.alloc();
    says(
        &rt,
        heap,
        answer(&input(heap, &[2, 10, 4, 8, 1, 2], 6 + 14 * 266 * 4)?),
        "tray 2 10 4 258 8",
    )?;
    says(
        &rt,
        heap,
        answer(&input(heap, &[1, 0, 0, 255, 255, 255], 6)?),
        "tray 1 0 0 65535 255",
    )
}

#[test]
fn the_limit_of_what_is_received(rt: HostRuntime) -> Result<(), Fail> {
    let heap = rt.alloc();
    says(
        &rt,
        heap,
        receive(&mut input(heap, &[1, 3, 2, 2, 25, 151], 65_536)?),
        "tray 1 3 2 6551 2\nintake refused 1",
    )?;
    says(
        &rt,
        heap,
        receive(&mut input(heap, &[1, 3, 2, 2, 25, 151], 65_537)?),
        "image refused 24",
    )
}

#[test]
fn sizes_beyond_the_limits(rt: HostRuntime) -> Result<(), Fail> {
    let heap = rt.alloc();
    says(
        &rt,
        heap,
        receive(&mut input(heap, &[1, 0, 0, 255, 255, 255], 6)?),
        "tray 1 0 0 65535 255\nintake refused 1",
    )?;
    says(
        &rt,
        heap,
        receive(&mut input(heap, &[1, 200, 2, 2, 0, 1], 6 + 202 * 3 * 2)?),
        "tray 1 200 2 1 2\nintake refused 1",
    )
}

#[test]
fn holes_of_a_tray_that_fits(rt: HostRuntime) -> Result<(), Fail> {
    let heap = rt.alloc();
    says(
        &rt,
        heap,
        receive(&mut input(heap, &[2, 10, 4, 8, 1, 2], 6 + 14 * 266 * 4)?),
        "tray 2 10 4 258 8\nintake refused 7 0 0",
    )
}

// Two data rows and two parity rows of three symbols in the byte field. What stands in card places is not asked.
const EXAMPLE: [u8; 46] = [
    1, 2, 2, 2, 0, 3, 1, 1, 1, 0, 0, 1, 1, 1, 0, 0, 1, 1, 1, 0, 0, 1, 1, 1, 0, 0, 1, 2, 3, 0, 0, 4,
    0, 0, 0, 0, 5, 2, 3, 0, 0, 163, 81, 247, 0, 0,
];

// The receipt of the example with one byte changed.
fn changed_says(
    rt: &impl Abort,
    heap: Global,
    at: usize,
    byte: u8,
    text: &str,
) -> Result<(), Fail> {
    let mut bytes = EXAMPLE;
    if at < 46 {
        bytes[at] = byte;
    }
    says(rt, heap, receive(&mut input(heap, &bytes, 46)?), text)
}

#[test]
fn the_first_fault_by_row_and_place(rt: HostRuntime) -> Result<(), Fail> {
    let heap = rt.alloc();
    changed_says(&rt, heap, 13, 0, "tray 1 2 2 3 2\nintake refused 7 1 2")?;
    changed_says(&rt, heap, 42, 80, "tray 1 2 2 3 2\nintake refused 8 3 1")
}

#[test]
fn a_counter_field_tray_taken_in(rt: HostRuntime) -> Result<(), Fail> {
    let heap = rt.alloc();
    says(
        &rt,
        heap,
        receive(&mut input(
            heap,
            &[
                2, 1, 1, 3, 0, 3, 1, 1, 1, 0, 0, 0, 1, 1, 1, 0, 0, 0, 0, 0, 1, 0, 0, 2, 0, 0, 3, 0,
                0, 0, 0, 0, 0, 0, 0, 0, 0, 0, 1, 0, 0, 2, 0, 0, 3,
            ],
            54,
        )?),
        "tray 2 1 1 3 3\nintake taken\nrow 0 card 6 34 262\nrow 1 card 6 34 262",
    )
}
