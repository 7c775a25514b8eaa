use super::{check, *};
use std::alloc::{AllocError, Global};
use std::process::Abort;
use std::test::Fail;

// A head, the length of the whole, and the number that the check answers; 0 is an image.
struct Case {
    head: [u8; 6],
    length: usize,
    number: u8,
}

// The head's bytes as far as they go, and zeros up to the length.
fn image(heap: Global, head: &[u8; 6], length: usize) -> Result<Vec<u8>, AllocError> {
    let mut bytes = Vec::from_slice(heap, head)?;
    bytes.resize(length, 0)?;
    Ok(bytes)
}

fn number(answer: Result<Head, ImageRefusal>) -> u8 {
    match answer {
        Ok(_) => 0,
        Err(refusal) => refusal.number(),
    }
}

fn all_answered(rt: &impl Abort, heap: Global, cases: &[Case]) -> Result<(), Fail> {
    for case in cases {
        let bytes = image(heap, &case.head, case.length)?;
        assert_eq!(rt;
            number(check(&bytes)),
            case.number,
            "{:?}, {}",
            case.head,
            case.length
        );
    }
    Ok(())
}

#[test]
fn refusals_in_their_order(rt: HostRuntime) -> Result<(), Fail> {
    all_answered(
        &rt,
        rt.alloc(),
        &[
            Case {
                head: [0; 6],
                length: 0,
                number: 21,
            },
            Case {
                head: [3, 0, 0, 0, 0, 0],
                length: 5,
                number: 21,
            },
            Case {
                head: [1, 0, 0, 0, 0, 0],
                length: 5,
                number: 21,
            },
            Case {
                head: [1, 0, 0, 0, 0, 0],
                length: 6,
                number: 0,
            },
            Case {
                head: [0, 0, 0, 0, 0, 0],
                length: 6,
                number: 22,
            },
            Case {
                head: [0, 2, 2, 2, 0, 3],
                length: 6,
                number: 22,
            },
            Case {
                head: [2, 0, 0, 0, 0, 0],
                length: 6,
                number: 0,
            },
            Case {
                head: [3, 0, 0, 0, 0, 0],
                length: 6,
                number: 22,
            },
            Case {
                head: [255, 1, 1, 2, 0, 1],
                length: 6,
                number: 22,
            },
            Case {
                head: [1, 2, 2, 2, 0, 3],
                length: 45,
                number: 23,
            },
            Case {
                head: [1, 2, 2, 2, 0, 3],
                length: 46,
                number: 0,
            },
            Case {
                head: [1, 2, 2, 2, 0, 3],
                length: 47,
                number: 23,
            },
            Case {
                head: [2, 2, 2, 2, 0, 3],
                length: 46,
                number: 23,
            },
            Case {
                head: [2, 2, 2, 2, 0, 3],
                length: 85,
                number: 23,
            },
            Case {
                head: [2, 2, 2, 2, 0, 3],
                length: 86,
                number: 0,
            },
            Case {
                head: [2, 2, 2, 2, 0, 3],
                length: 87,
                number: 23,
            },
        ],
    )
}

#[test]
fn sizes_at_nothing_and_at_their_largest(rt: HostRuntime) -> Result<(), Fail> {
    all_answered(
        &rt,
        rt.alloc(),
        &[
            Case {
                head: [1, 0, 0, 255, 255, 255],
                length: 6,
                number: 0,
            },
            Case {
                head: [2, 255, 255, 0, 0, 0],
                length: 6,
                number: 0,
            },
            Case {
                head: [1, 255, 255, 0, 0, 1],
                length: 1_026,
                number: 0,
            },
            Case {
                head: [1, 255, 255, 0, 0, 1],
                length: 1_025,
                number: 23,
            },
            Case {
                head: [1, 1, 0, 255, 255, 255],
                length: 131_586,
                number: 0,
            },
            Case {
                head: [2, 0, 1, 255, 255, 255],
                length: 263_166,
                number: 0,
            },
            Case {
                head: [1, 1, 0, 255, 255, 255],
                length: 131_587,
                number: 23,
            },
            Case {
                head: [2, 255, 255, 255, 255, 255],
                length: 6,
                number: 23,
            },
            Case {
                head: [1, 1, 0, 0, 1, 0],
                length: 518,
                number: 0,
            },
        ],
    )?;
    let largest = Head {
        field: FieldKind::Counter,
        data_rows: 255,
        parity_rows: 255,
        card_length: 255,
        block_length: 65_535,
    };
    assert_eq!(rt; largest.image_length(), 134_211_606);
    Ok(())
}

#[test]
fn parts_of_the_head(rt: HostRuntime) -> Result<(), Fail> {
    let bytes = image(rt.alloc(), &[2, 1, 0, 2, 1, 3], 1_050)?;
    let head = Head {
        field: FieldKind::Counter,
        data_rows: 1,
        parity_rows: 0,
        card_length: 2,
        block_length: 259,
    };
    assert_eq!(rt; check(&bytes), Ok(head));
    Ok(())
}
