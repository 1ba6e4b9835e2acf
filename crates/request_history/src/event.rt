//! [`Event`]: what may happen to a world, and why it doesn't.
use pod_base::{Bytes, Moment};
use thiserror::Error;

/// One atomic step of a server with many connections and one keeper. Connections are counted from 0.
#[derive(Debug, Drop)]
pub enum Event {
    /// Bytes arrive at a connection.
    Arrive {
        conn: usize,
        piece: Bytes,
    },
    /// What is next on a connection and is no change is answered at a place, at a moment.
    Look {
        conn: usize,
        place: u64,
        moment: Moment,
    },
    /// A change that is next on a connection takes the lock, at a moment.
    Take {
        conn: usize,
        moment: Moment,
    },
    /// The holder of the lock closes the gate of the entry in doubt, or a disk fails.
    Repair {
        ok: bool,
    },
    /// The holder of the lock writes the record of its entry, or a disk fails.
    Body {
        ok: bool,
    },
    /// The holder of the lock opens the gate of its record, or a disk fails.
    Gate {
        ok: bool,
    },
    /// The entry of the holder of the lock is published, and its connection is answered.
    Publish,
    /// The world stops, and leaves this image of a disk.
    Stop {
        image: Bytes,
    },
}

/// Why a world didn't take an event. It is as before.
#[derive(Clone, Copy, Debug, PartialEq, Eq, Error)]
pub enum StepFault {
    /// The event isn't possible now.
    #[error("not now")]
    NotNow,
    /// Memory ran out.
    #[error("out of memory")]
    NoMemory,
}
