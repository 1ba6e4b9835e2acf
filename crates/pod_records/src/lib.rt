//! What the records of a pod's journal hold: a snapshot of the pod, and the entries made since.
//!
//! ```ignore
//! let record = snapshot_record(alloc, &state)?;                // a checkpoint's record
//! let reading = read_records(alloc, format, first, entries)?;  // decodes and applies each once
//! let state = reading.version;
//! ```
//!
//! `specs/Records.antt` defines what records hold (`Holds`), and `specs/PodStores.antt` what two
//! disks represent by it, or where they are damaged. Proved of [`read_records`]: the pod, the
//! number of its next change and the last moment are those that the records hold (`read`), and a
//! damage is at the first gate whose record breaks what they are to hold (`cause`).
//!
//! It depends on `pod_command` for the texts, on `pod_rows` for pods, and on `journal_log` and
//! `journal_pair` for frames and stores.
//!
//! [`fits`] is true exactly where an entry applies to a pod (`sound`, `complete`), by the definition
//! in `pod_rows` (`specs/Apply.antt`), for every state of a pod. It looks rows up by path, at most
//! five times for an edit, and lists the children of a container that the entry removes. A `Put`
//! alone of a row in place of another costs one look-up and no memory, and a change alone of the
//! graph of a document looks up what it removes and makes no graph.
#![tactic(auto)]

mod edited_rows;
mod fitting;
mod lone_change;
mod opening;
mod record_reading;
mod record_texts;
mod row_checks;
mod row_replacement;

pub use fitting::fits;
pub use opening::{OpenedStore, open_store};
pub use record_reading::{Reading, RecordFault, read_entry, read_records};
pub use record_texts::{entry_record, record_of, snapshot_record};
