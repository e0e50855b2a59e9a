//! An unknown key of a tree file, written in pieces.

ghost use Rattle.std.specs.Prelude.{◌≡◌, ◌≤◌, ◌++◌, length, map, codes, OnOk, OnErr};
ghost use Rattle.ddm_cli.specs.DdmOutside.Causes.{HasCause};
ghost use Rattle.ddm_cli.specs.ReportCrate.Appends.{Appends, AppendsPart};
ghost use Rattle.ddm_cli.specs.TextModel.Faults.{shown_byte, shown_key};
ghost use Rattle.ddm_cli.specs.Top.{line_rest};

use crate::of_ddm_outside::{Failed, Sink};
use crate::of_report::{FaultLine, write_all};
use crate::of_tree_config::TreeRefusal;
use crate::status::Status;

// How many bytes of a key are written at a time.
const PIECE_BYTES: usize = 64;

// A byte of a key, or a question mark where it can't be printed.
fn shown_byte(byte: u8) -> u8
    ensures { result ≡ shown_byte byte }
{
    if 33 <= byte && byte <= 126 {
        byte
    } else {
        b'?'
    }
}

// A piece of a key as it is printed.
fn shown(piece: &[u8]) -> FaultLine
    requires { length piece.now ≤ 64 }
    ensures { result ≡ map shown_byte piece.now }
{
    let mut line = FaultLine::new();
    for byte in piece {
        line.push(&[shown_byte(*byte)]);
    }
    line
}

// Writes a key and the end of its line, piece by piece, since a key may be as long as its file.
fn tell_key<K: Sink>(faults_out: &mut K, key: &str) -> Result<(), Failed>
    ensures ok { OnOk result (Appends (K.held faults_out.old) (K.held faults_out.new) (shown_key key.now ++ codes "\n")) }
    ensures err { OnErr result (AppendsPart (K.held faults_out.old) (K.held faults_out.new) (shown_key key.now ++ codes "\n")) }
    ensures cause { HasCause (K.faults faults_out.old) (K.faults faults_out.new) result }
{
    let bytes = key.as_bytes();
    let mut at = 0;
    'telling: while at < bytes.len() {
        let end = bytes.len().min(at + PIECE_BYTES);
        write_all(faults_out, shown(&bytes[at..end]).as_slice())?;
        at = end;
    }
    write_all(faults_out, b"\n")
}

/// Writes what a status's line has after its head, which is an unknown key.
pub fn tell_rest<K: Sink>(faults_out: &mut K, status: &Status) -> Result<(), Failed>
    ensures ok { OnOk result (Appends (K.held faults_out.old) (K.held faults_out.new) (line_rest status.now)) }
    ensures err { OnErr result (AppendsPart (K.held faults_out.old) (K.held faults_out.new) (line_rest status.now)) }
    ensures cause { HasCause (K.faults faults_out.old) (K.faults faults_out.new) result }
{
    match status {
        Status::Tree(TreeRefusal::UnknownKey(key)) => tell_key(faults_out, key.as_str()),
        _ => Ok(()),
    }
}
