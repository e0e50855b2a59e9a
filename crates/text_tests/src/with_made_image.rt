//! A test of a made image.

use made_image::make_image;
use std::test::Fail;

/// The file of the seed 42 with two rounds, its code as an assembler makes it.
const FILE: [u8; 148] = [
    0x7f, 0x45, 0x4c, 0x46, 1, 1, 1, 0, 0, 0, 0, 0, 0, 0, 0, 0, // identity
    2, 0, 243, 0, 1, 0, 0, 0, 0, 0, 1, 0, 52, 0, 0, 0, 0, 0, 0, 0, 0, 0, 0, 0, // to the flags
    52, 0, 32, 0, 2, 0, 0, 0, 0, 0, 0, 0, // sizes and counts
    1, 0, 0, 0, 116, 0, 0, 0, 0, 0, 1, 0, 0, 0, 1, 0, 32, 0, 0, 0, 32, 0, 0, 0, 5, 0, 0, 0, 1, 0,
    0, 0, // the code
    1, 0, 0, 0, 148, 0, 0, 0, 0, 0, 32, 0, 0, 0, 32, 0, 0, 0, 0, 0, 0, 1, 0, 0, 6, 0, 0, 0, 1, 0,
    0, 0, // the memory
    0xb7, 0x02, 0x20, 0x00, // lui x5,0x200
    0x13, 0x84, 0xc2, 0x0d, // addi x8,x5,220
    0x2f, 0x23, 0x74, 0x00, // amoadd.w x6,x7,(x8)
    0x03, 0xa3, 0x42, 0x02, // lw x6,36(x5)
    0xb3, 0x83, 0x63, 0x00, // add x7,x7,x6
    0x93, 0x08, 0xd0, 0x05, // addi x17,x0,93
    0x13, 0x85, 0x03, 0x00, // addi x10,x7,0
    0x73, 0x00, 0x00, 0x00, // ecall
];

#[test]
fn one_image(rt: HostRuntime) -> Result<(), Fail> {
    let file = make_image(rt.alloc(), 42, 2)?;
    assert_eq!(rt; file.as_slice(), FILE.as_slice());
    Ok(())
}
