//! A law of readings, as the contract of a function that does nothing.

ghost use Rattle.program_words.specs.Spelling.{ReadsWhatIsWritten};

/// The words of `podctl` have a reading exactly where they are written by the rules: a subcommand,
/// and then uses of its options and its operand, each at most once, in any order.
pub fn readings_are_written()
    ensures { ReadsWhatIsWritten }
{}
