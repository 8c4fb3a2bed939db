//! Writing the text of an outcome.

ghost use Rattle.std.specs.Prelude.{◌≡◌, ◌++◌, IsTrue, OnOk, OnErr};
ghost use Rattle.plain_types.specs.Counts.{Rose};
ghost use Rattle.mf_types.specs.Pieces.{AppendsFront};

use mf_types::sink::Sink;
use plain_types::fault::Failed;

/// How many bytes are written at once, at most.
const PIECE: usize = 4096;

/// Writes a text in pieces.
pub fn write_text<K: Sink>(sink: &mut K, text: &[u8]) -> Result<(), Failed>
    ensures ok { OnOk result (IsTrue (K.state sink.old).tells → (K.state sink.new).written ≡ (K.state sink.old).written ++ text.now) }
    ensures failed { OnErr result (IsTrue (K.state sink.old).tells → AppendsFront (K.state sink.old).written (K.state sink.new).written text.now) }
    ensures faults { OnOk result ((K.state sink.new).faults ≡ (K.state sink.old).faults) }
    ensures cause { OnErr result (Rose (K.state sink.old).faults (K.state sink.new).faults) }
{
    let mut done = 0;
    while done < text.len() {
        let end = done + PIECE.min(text.len() - done);
        if let Err(failed) = sink.write(&text[done..end]) {
            return Err(failed);
        }
        done = end;
    }
    Ok(())
}
