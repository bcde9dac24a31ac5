//! Parts of files, read at once.
ghost use Rattle.std.specs.Prelude.{◌≡◌, ◌+◌, ◌-◌, ◌*◌, ◌≤◌, ℕ, List, [], length, true, IfErr, OnOk};
ghost use Rattle.x86_64_dump.specs.Source.{bytes_at};
ghost use Rattle.x86_64_dump.specs.private.FileParts.{IsOf, has_frame_at};

use crate::source::ByteSource;
use std::io;
use std::marker::Model;
use x86_64_page::page::{PageSize, Size4KiB};

/// The largest number of frames in a part.
pub const MOST_FRAMES: usize = 8;

/// The size of a frame.
const FRAME_SIZE: usize = Size4KiB::SIZE as usize;

/// A part of a file that was read at once, so that frames that lie together in the file take one read.
#[derive(Drop)]
pub struct FilePart {
    /// The bytes. Those behind the first `count` are left from before.
    bytes: [u8; MOST_FRAMES * FRAME_SIZE],
    /// The offset in the file of the first.
    start: u64,
    /// The number of bytes that were read.
    count: usize,
}

impl Model for FilePart {
    ghost use Rattle.std.specs.Prelude.{◌≤◌, take};
    ghost use Rattle.x86_64_dump.specs.private.FileParts.{Part};

    ghost Value = { Part };

    ghost view = { λ part. record { start = part.start; bytes = take part.count part.bytes } };

    ghost invariant = { λ part. part.count ≤ 32768 };
}

impl FilePart {
    /// Creates a part without bytes.
    pub fn new() -> FilePart
        ensures { (file : List ℕ) → IsOf file result }
    {
        FilePart {
            bytes: [0; MOST_FRAMES * FRAME_SIZE],
            start: 0,
            count: 0,
        }
    }

    /// Returns true if the part has the frame at an offset of the file.
    pub fn has_frame(&self, offset: u64) -> bool
        ensures { result ≡ has_frame_at self.now offset }
    {
        self.start <= offset
            && FRAME_SIZE <= self.count
            && offset - self.start <= (self.count - FRAME_SIZE) as u64
    }

    /// Reads this many frames from an offset of the file on. The part then has these and no others.
    ///
    /// # Errors
    ///
    /// The error of the source. The part then has no bytes.
    pub fn read<S: ByteSource>(&mut self, source: &S, offset: u64, frames: usize) -> io::Result<()>
        requires { frames ≤ 8 }
        ensures bytes { S.IsKnown → OnOk result (IsOf (S.bytes source.now) self.new) }
        ensures place { OnOk result (
            (self.new.start ≡ offset) × (length self.new.bytes ≡ 4096 * frames)) }
        ensures failed { offset + 4096 * frames ≤ S.size source.now → IfErr result (λ _. S.may_fail ≡ true) }
        ensures nothing { IfErr result (λ _. self.new.bytes ≡ []) }
    {
        let count = frames * FRAME_SIZE;
        self.count = 0;
        source.read_exact_at(&mut self.bytes[..count], offset)?;
        self.start = offset;
        self.count = count;
        Ok(())
    }

    /// Returns the bytes of the frame at an offset of the file.
    pub fn frame(&self, offset: u64) -> &[u8]
        requires { has_frame_at self.now offset ≡ true }
        ensures length { length result.now ≡ 4096 }
        ensures bytes { result.now ≡ bytes_at self.now.bytes (offset - self.now.start) 4096 }
        ensures file { (file : List ℕ) → IsOf file self.now → result.now ≡ bytes_at file offset 4096 }
    {
        let at = (offset - self.start) as usize;
        &self.bytes[at..at + FRAME_SIZE]
    }
}
