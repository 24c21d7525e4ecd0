//! What no clause says: that the calls succeed, and the bytes of `docs/formats/batches.md`.
use super::*;
use std::test::*;

/// Batch 1 deletes the key 01.
const DELETES: [u8; 15] = [0, 0, 0, 0, 0, 0, 0, 1, 0, 0, 0, 1, 2, 1, 1];

/// Batch 7 puts 01 02 03 under "ab", and deletes "c".
const CHANGES: [u8; 26] = [
    0, 0, 0, 0, 0, 0, 0, 7, 0, 0, 0, 2, 1, 2, 97, 98, 0, 0, 0, 3, 1, 2, 3, 2, 1, 99,
];

#[test]
fn a_batch_of_one_deletion(rt: HostRuntime) -> Result<(), Fail> {
    let batch = decode_batch(rt.alloc(), &DELETES)
        .ok()
        .flatten()
        .ok_or("the bytes are a batch")?;
    assert_eq!(rt; batch.seq, 1);
    let rows = batch.rows.as_slice();
    assert_eq!(rt; rows.len(), 1);
    let row = rows.first().ok_or("there is a row")?;
    assert_eq!(rt; row.key.as_slice(), [1].as_slice());
    assert!(rt; row.value.is_none());
    Ok(())
}

#[test]
fn a_batch_that_puts_and_deletes(rt: HostRuntime) -> Result<(), Fail> {
    let batch = decode_batch(rt.alloc(), &CHANGES)
        .ok()
        .flatten()
        .ok_or("the bytes are a batch")?;
    assert_eq!(rt; batch.seq, 7);
    let rows = batch.rows.as_slice();
    assert_eq!(rt; rows.len(), 2);
    let put = rows.first().ok_or("there is a row")?;
    assert_eq!(rt; put.key.as_slice(), b"ab".as_slice());
    let value = put.value.as_ref().ok_or("the row has a value")?;
    assert_eq!(rt; value.as_slice(), [1, 2, 3].as_slice());
    let deleted = rows.last().ok_or("there is a row")?;
    assert_eq!(rt; deleted.key.as_slice(), b"c".as_slice());
    assert!(rt; deleted.value.is_none());
    Ok(())
}

#[test]
fn what_was_read_is_spelled_again(rt: HostRuntime) -> Result<(), Fail> {
    for bytes in [DELETES.as_slice(), CHANGES.as_slice()] {
        let Ok(Some(batch)) = decode_batch(rt.alloc(), bytes) else {
            return Err("the bytes are a batch".into());
        };
        let spelled = encode_batch(rt.alloc(), &batch)
            .ok()
            .ok_or("there is memory")?;
        assert_eq!(rt; spelled.as_slice(), bytes);
    }
    Ok(())
}

#[test]
fn other_bytes_are_no_batch(rt: HostRuntime) {
    let others: [&[u8]; 9] = [
        // A byte too many and one too few.
        &[0, 0, 0, 0, 0, 0, 0, 1, 0, 0, 0, 1, 2, 1, 1, 0],
        &[0, 0, 0, 0, 0, 0, 0, 1, 0, 0, 0, 1, 2, 1],
        // A count too large and one too small.
        &[0, 0, 0, 0, 0, 0, 0, 1, 0, 0, 0, 2, 2, 1, 1],
        &[0, 0, 0, 0, 0, 0, 0, 1, 0, 0, 0, 0, 2, 1, 1],
        // A key that falls, one that comes twice, and one that is empty.
        &[0, 0, 0, 0, 0, 0, 0, 1, 0, 0, 0, 2, 2, 1, 2, 2, 1, 1],
        &[0, 0, 0, 0, 0, 0, 0, 1, 0, 0, 0, 2, 2, 1, 1, 2, 1, 1],
        &[0, 0, 0, 0, 0, 0, 0, 1, 0, 0, 0, 1, 2, 0],
        // A deletion with a value, and an unknown tag.
        &[0, 0, 0, 0, 0, 0, 0, 1, 0, 0, 0, 1, 2, 1, 1, 0, 0, 0, 0],
        &[0, 0, 0, 0, 0, 0, 0, 1, 0, 0, 0, 1, 3, 1, 1],
    ];
    for bytes in others {
        assert!(rt; matches!(decode_batch(rt.alloc(), bytes), Ok(None)));
    }
}
