//! Writes whole responses to an output.
ghost use Rattle.pod_io.specs.Writing.{Writes};
ghost use Rattle.pod_io.specs.Counts.{CountsFaults};

use crate::output::Output;
use http_out::Out;
use pod_io::Failed;

/// The size of the buffer that a response is copied through.
const PIECE: usize = 8_192;

/// Writes the whole text of a response to the output, or not all of it where a write fails. It
/// takes no memory.
pub(crate) fn write_text<K: Output>(output: &mut K, text: &[u8]) -> Result<(), Failed>
    ensures writes { Writes result text.now (K.taken output.old) (K.taken output.new) }
    ensures faults { CountsFaults result (K.faults output.old) (K.faults output.new) }
    ensures follows { K.follows output.old output.new }
{
    let mut at = 0;
    while at < text.len() {
        at += output.write(&text[at..])?;
    }
    Ok(())
}

/// Writes a whole response to the output, or not all of it where a write fails. It takes no memory.
pub(crate) fn write_out<K: Output>(output: &mut K, mut out: Out) -> Result<(), Failed>
    ensures writes { Writes result out (K.taken output.old) (K.taken output.new) }
    ensures faults { CountsFaults result (K.faults output.old) (K.faults output.new) }
    ensures follows { K.follows output.old output.new }
{
    let mut piece = [0u8; PIECE];
    'pieces: loop {
        let count = out.next(&mut piece);
        if count == 0 {
            return Ok(());
        }
        match write_text(output, &piece[..count]) {
            Ok(()) => {}
            Err(failed) => return Err(failed),
        }
    }
}
