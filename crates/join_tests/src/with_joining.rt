//! Tests of tables that are read and summed. Whole calls of `join` are among the stored cases.

use joining::of_join_model::TableRefusal;
use joining::{TableError, TableSum, read_table};
use std::alloc::Global;
use std::test::Fail;

const TURNED: &[u8] =
    b"outcomes 2 runs 5\noutcome 2 8 hart 0 exit 0 out 48\noutcome 3 7 hart 0 exit 1 out -\nend\n";

const FIRST: &[u8] =
    b"outcomes 2 runs 5\noutcome 3 7 hart 0 exit 1 out -\noutcome 2 8 hart 0 exit 0 out 48\nend\n";

// The text of the sum of this table alone, or why it is refused.
fn alone(alloc: Global, file: &[u8]) -> Result<Vec<u8>, TableError> {
    let table = match read_table(alloc, file) {
        Ok(table) => table,
        Err(error) => return Err(error),
    };
    let mut sum = TableSum::new(alloc);
    match sum.add(alloc, &table) {
        Ok(()) => {}
        Err(error) => return Err(error),
    }
    match sum.into_text(alloc) {
        Ok(text) => Ok(text),
        Err(_) => Err(TableError::Memory),
    }
}

// The lines are put in order: the more frequent outcome is first.
#[test]
fn puts_lines_in_order(rt: HostRuntime) -> Result<(), Fail> {
    match alone(rt.alloc(), TURNED) {
        Ok(text) => assert_eq!(rt; text.as_slice(), FIRST),
        Err(_) => assert!(rt; false),
    }
    Ok(())
}

#[test]
fn refuses_what_is_no_table(rt: HostRuntime) -> Result<(), Fail> {
    let cases: [(&[u8], TableRefusal); 3] = [
        (b"outcomes 1 runs 2\n", TableRefusal::NoEnd(2)),
        (
            b"outcomes 1 runs 2\noutcome 3 1 x\nend\n",
            TableRefusal::BadLine(2),
        ),
        (b"outcomes 0 runs 0\nend\n\n", TableRefusal::AfterEnd(3)),
    ];
    for (file, refusal) in cases {
        match alone(rt.alloc(), file) {
            Ok(_) => assert!(rt; false),
            Err(answer) => assert!(rt; answer == TableError::Refused(refusal)),
        }
    }
    Ok(())
}
