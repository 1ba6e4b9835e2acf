//! The bytes of a disk that were read last.

ghost use Rattle.std.specs.Prelude.{◌≡◌, ◌≤◌, length};

/// Some bytes of a disk, as they were read last.
#[derive(Drop)]
pub struct Window {
    pub buffer: Vec<u8>,
    /// The offset on the disk of the first byte in the buffer.
    pub at: u64,
    /// How many bytes of the buffer are the disk's.
    pub filled: usize,
    /// The length of the disk.
    pub size: u64,
    ghost whole: { length buffer.items ≡ 65536 },
    ghost within: { filled ≤ 65536 },
}
