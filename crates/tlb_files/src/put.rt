//! A text in pieces.
ghost use Rattle.std.specs.Prelude.{OnErr, OnOk};
ghost use Rattle.tlb_edge.specs.Causes.{HasCause};
ghost use Rattle.tlb_files.specs.Pieces.{Puts, PutsPrefix, output};

use tlb_edge::{Failed, Sink};

const PIECE_SIZE: usize = 256;

/// Puts a text in pieces of 256 bytes, of which the last holds what is left.
pub fn put_all<K: Sink>(sink: &mut K, text: &[u8]) -> Result<(), Failed>
    ensures ok { OnOk result (Puts (output (K.written sink.old) (K.puts sink.old))
        (output (K.written sink.new) (K.puts sink.new)) text.now) }
    ensures err { OnErr result (PutsPrefix (output (K.written sink.old) (K.puts sink.old))
        (output (K.written sink.new) (K.puts sink.new)) text.now) }
    ensures cause { HasCause (K.faults sink.old) (K.faults sink.new) result }
{
    let mut at = 0;
    while at < text.len() {
        let end = at + (text.len() - at).min(PIECE_SIZE);
        sink.put(&text[at..end])?;
        at = end;
    }
    Ok(())
}
