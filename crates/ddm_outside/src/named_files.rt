//! Files in memory by their names.

ghost use Rattle.std.specs.Prelude.{◌≡◌, ◌-◌, ◌<◌, ◌≤◌, min, length, IfSome};
ghost use Rattle.ddm_outside.specs.NamedFiles.{place_of};
ghost use Rattle.ddm_outside.specs.Telling.{ReadsPart};

use crate::NamedFile;

// The place of the first file with this name.
pub fn place_named(files: &[NamedFile], name: &str) -> Option<usize>
    ensures place { result ≡ place_of files.now name.now }
    ensures inside { IfSome result (λ i. i < length files.now) }
{
    for (i, file) in files.iter().enumerate() {
        if file.name.as_str() == name {
            return Some(i);
        }
    }
    None
}

// Fills the front with the bytes from an offset on.
pub fn copy_part(bytes: &[u8], at: u64, into: &mut [u8]) -> usize
    requires { 0 < length into.old }
    ensures amount { result ≡ min (length into.old) (length bytes.now - at) }
    ensures bound { result ≤ length into.new }
    ensures part { ReadsPart bytes.now at result into.new }
{
    if at >= bytes.len() as u64 {
        return 0;
    }
    let rest = &bytes[at as usize..];
    let n = rest.len().min(into.len());
    into[..n].copy_from_slice(&rest[..n]);
    n
}
