//! Writes words that a number follows.
ghost use Rattle.std.specs.Prelude.{◌++◌, decimal};
ghost use Rattle.pod_io.specs.Counts.{CountsFaults};
ghost use Rattle.pod_io.specs.Writing.{Writes, number_line};

use crate::text_writing::write_all;
use crate::{Failed, Sink};
use itoa::Buffer;

/// Writes a text and a number in decimal after it to a sink, or not all of them where a write
/// fails.
pub fn write_number<K: Sink>(output: &mut K, text: &[u8], number: u64) -> Result<(), Failed>
    ensures writes { Writes result (text.now ++ decimal number)
        (K.taken output.old) (K.taken output.new) }
    ensures faults { CountsFaults result (K.faults output.old) (K.faults output.new) }
{
    write_all(output, text)?;
    write_all(output, Buffer::new().format(number).as_bytes())
}

/// Writes a text, a number in decimal and LF to a sink, or not all of them where a write fails.
pub fn write_number_line<K: Sink>(output: &mut K, text: &[u8], number: u64) -> Result<(), Failed>
    ensures writes { Writes result (number_line text.now number)
        (K.taken output.old) (K.taken output.new) }
    ensures faults { CountsFaults result (K.faults output.old) (K.faults output.new) }
{
    write_number(output, text, number)?;
    write_all(output, b"\n")
}
