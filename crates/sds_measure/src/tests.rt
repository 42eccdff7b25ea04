//! A test of the bytes that are written.
use crate::sample::batch;
use sds_batchtext::{put_batch, put_head};
use std::test::Fail;

/// The head, the heading once, a line for each row with its values in quotes, and the commit.
const WRITTEN: &[u8] = b"nodeid,s1\nbinary,BASE64\nchannel,sale\nbatch,1\ntable,sale\nkeys,id\n\
    columns,id,store,item_id,qty\ninsert,\"s1-123456\",\"001\",\"1\",\"2\"\n\
    insert,\"s1-123456\",\"001\",\"1\",\"2\"\ncommit,1\n";

#[test]
#[tactic(auto, using(crate::proofs::Samples::writable_by))]
fn a_batch_is_written_byte_for_byte(rt: HostRuntime) -> Result<(), Fail> {
    let mut text = Vec::new(rt.alloc());
    put_head("s1", &mut text)?;
    put_batch(&batch(rt.alloc(), 2)?, &mut text)?;
    assert!(rt; text.as_slice() == WRITTEN);
    Ok(())
}
