//! The page is put at the end of a text, as far as a film and from there on.

ghost use Rattle.std.specs.Prelude.{OnOk};
ghost use Rattle.page_bytes.specs.DdmText.Adds.{Adds};
ghost use Rattle.page_bytes.specs.Page.{page_back, page_front};

use crate::of_ddm_types::NoMemory;
use crate::page::{back_part, front_part};

/// Puts at the end what is before a film.
pub fn push_front(out: &mut Vec<u8>) -> Result<(), NoMemory>
    ensures { OnOk result (Adds out.old.items out.new.items page_front) }
{
    let mut number = 0;
    'parts: while let Some(part) = front_part(number) {
        out.extend_from_slice(part)?;
        number += 1;
    }
    Ok(())
}

/// Puts at the end what is behind a film.
pub fn push_back(out: &mut Vec<u8>) -> Result<(), NoMemory>
    ensures { OnOk result (Adds out.old.items out.new.items page_back) }
{
    let mut number = 0;
    'parts: while let Some(part) = back_part(number) {
        out.extend_from_slice(part)?;
        number += 1;
    }
    Ok(())
}
