//! [`Ranges`]: outcomes of numbers that follow each other.

use pod_base::Mem;
use std::alloc::Global;

/// Outcomes of numbers, where equal ones that follow each other are one.
#[derive(Drop)]
pub(crate) struct Ranges {
    text: String,
    from: u64,
    to: u64,
    // The outcome of the last numbers; empty where there is none.
    last: String,
}

impl Ranges {
    /// No outcomes.
    pub(crate) fn new(alloc: Global) -> Ranges {
        Ranges {
            text: String::new(alloc),
            from: 0,
            to: 0,
            last: String::new(alloc),
        }
    }

    /// Adds an outcome of these numbers.
    fn push(&mut self, alloc: Global, numbers: &str) -> Mem<()> {
        let shown = format!(in alloc; "{numbers}: {}", self.last.as_str())?;
        if !self.text.is_empty() {
            self.text.push_str("; ")?;
        }
        self.text.push_str(shown.as_str())?;
        Ok(())
    }

    /// Adds the last outcome.
    fn flush(&mut self, alloc: Global) -> Mem<()> {
        if self.last.is_empty() {
            return Ok(());
        }
        let numbers = if self.from == self.to {
            format!(in alloc; "{}", self.from)?
        } else {
            format!(in alloc; "{}-{}", self.from, self.to)?
        };
        self.push(alloc, &numbers)
    }

    /// Notes the outcome of the next number.
    pub(crate) fn note(&mut self, alloc: Global, number: u64, outcome: String) -> Mem<()> {
        if outcome.as_str() != self.last.as_str() {
            self.flush(alloc)?;
            self.from = number;
            self.last = outcome;
        }
        self.to = number;
        Ok(())
    }

    /// The text of all outcomes.
    pub(crate) fn finish(self, alloc: Global) -> Mem<String> {
        let mut ranges = self;
        ranges.flush(alloc)?;
        Ok(ranges.text)
    }

    /// The text of all outcomes, where the last one is that of all numbers from its first on.
    pub(crate) fn finish_open(self, alloc: Global) -> Mem<String> {
        let mut ranges = self;
        let numbers = format!(in alloc; "{} on", ranges.from)?;
        ranges.push(alloc, &numbers)?;
        Ok(ranges.text)
    }
}
