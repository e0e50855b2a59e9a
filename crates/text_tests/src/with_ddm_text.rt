//! Tests of numbers, lines and texts.

use crate::of_ddm_text::{
    LineCut, NumberRefusal, Text, cut_line, push_decimal, push_hex2, push_hex8, read_decimal,
};
use std::test::Fail;

#[test]
fn reads_numbers(rt: HostRuntime) {
    assert_eq!(rt; read_decimal(b"0", 0), Ok(0));
    assert_eq!(rt; read_decimal(b"255", 255), Ok(255));
    assert_eq!(rt; read_decimal(b"256", 255), Err(NumberRefusal::TooLarge));
    assert_eq!(rt;
        read_decimal(b"18446744073709551615", 18446744073709551615),
        Ok(18446744073709551615)
    );
    assert_eq!(rt;
        read_decimal(b"18446744073709551616", 18446744073709551615),
        Err(NumberRefusal::TooLarge)
    );
    assert_eq!(rt; read_decimal(b"", 9), Err(NumberRefusal::NotANumber(0)));
    assert_eq!(rt; read_decimal(b"00", 9), Err(NumberRefusal::NotANumber(1)));
    assert_eq!(rt;
        read_decimal(b"9999x", 9),
        Err(NumberRefusal::NotANumber(4))
    );
}

#[test]
fn writes_numbers(rt: HostRuntime) -> Result<(), Fail> {
    let mut out = Vec::new(rt.alloc());
    push_decimal(&mut out, 18446744073709551615)?;
    push_decimal(&mut out, 0)?;
    push_hex8(&mut out, 0x0bad_cafe)?;
    push_hex2(&mut out, 0x7)?;
    assert_eq!(rt;
        out.as_slice(),
        b"1844674407370955161500badcafe07".as_slice()
    );
    Ok(())
}

#[test]
fn cuts_lines(rt: HostRuntime) {
    assert_eq!(rt; cut_line(b"h 0 0\nend\n", 0, 24), LineCut::Line(5));
    assert_eq!(rt; cut_line(b"h 0 0\nend\n", 6, 3), LineCut::Line(3));
    assert_eq!(rt; cut_line(b"h 0 0\nend\n", 6, 2), LineCut::LineTooLong);
    assert_eq!(rt; cut_line(b"h 0 0", 0, 5), LineCut::NoEndOfLine);
    assert_eq!(rt; cut_line(b"h 0 0\n", 6, 24), LineCut::NoEndOfLine);
}

#[test]
fn keeps_a_text(rt: HostRuntime) -> Result<(), Fail> {
    let text = Text::of(rt.alloc(), "ways")?;
    assert_eq!(rt; text.as_str(), "ways");
    Ok(())
}
