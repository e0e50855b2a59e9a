//! Small files, judged by the definitions: each clause is a theorem, and there is nothing to run.

ghost use Rattle.checkpoint.specs.Examples.{SmallFiles};

/// States that are read back, and files with one mistake.
pub fn small_files()
    ensures { SmallFiles }
{}
