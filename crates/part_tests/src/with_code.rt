//! Tests of the code map.

use crate::of_ddm_types::{Code, CodePart};
use std::test::Fail;

#[test]
fn two_parts(rt: HostRuntime) -> Result<(), Fail> {
    let high = CodePart {
        start: 0x20000,
        words: vec![in rt.alloc(); 7]?,
    };
    let low = CodePart {
        start: 0x10000,
        words: vec![in rt.alloc(); 5, 6]?,
    };
    let code = Code::from_parts(rt.alloc(), vec![in rt.alloc(); high, low]?)?;
    assert_eq!(rt; code.word_at(0x10000), Some(5));
    assert_eq!(rt; code.word_at(0x10004), Some(6));
    assert_eq!(rt; code.word_at(0x10008), None);
    assert_eq!(rt; code.word_at(0x10002), None);
    assert_eq!(rt; code.word_at(0x20000), Some(7));
    Ok(())
}
