//! The commands that say something of the program itself.

ghost use Rattle.ddm_cli.specs.DdmOutside.Causes.{HasCause};
ghost use Rattle.ddm_words.specs.About.{about_text};
ghost use Rattle.ddm_cli.specs.Printed.{Writes};

use crate::of_ddm_outside::{Failed, Sink};
use crate::of_report::write_all;
use ddm_words::{About, further_text, own_text};

/// Writes what the program says of itself.
pub fn write_about<K: Sink>(out: &mut K, about: About) -> Result<(), Failed>
    ensures written { Writes (K.held out.old) (K.held out.new) (about_text about) result }
    ensures cause { HasCause (K.faults out.old) (K.faults out.new) result }
{
    write_all(out, own_text(about))?;
    write_all(out, further_text(about))
}
