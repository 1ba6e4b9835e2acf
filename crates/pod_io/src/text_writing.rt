//! Writes a whole text to a sink.
ghost use Rattle.pod_io.specs.Counts.{CountsFaults};
ghost use Rattle.pod_io.specs.Writing.{Writes};

use crate::{Failed, Sink};

/// Writes the whole text to a sink, or not all of it where a write fails.
pub fn write_all<K: Sink>(output: &mut K, text: &[u8]) -> Result<(), Failed>
    ensures writes { Writes result text.now (K.taken output.old) (K.taken output.new) }
    ensures faults { CountsFaults result (K.faults output.old) (K.faults output.new) }
{
    let mut at = 0;
    while at < text.len() {
        at += output.write(&text[at..])?;
    }
    Ok(())
}
