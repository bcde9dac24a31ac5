//! Sources of bytes, read at offsets.
ghost use Rattle.std.specs.Prelude.{◌≡◌, ◌+◌, ◌≤◌, Bool, true, false, ℕ, List, length, nat_lt, IfErr, OnOk, ⊤, [], refl};
ghost use Rattle.x86_64_dump.specs.Source.{bytes_at};

use std::fs::File;
use std::io::{self, ErrorKind, Seek, SeekFrom};
use std::os::unix::fs::FileExt;

/// A source of bytes that are read at offsets: a file or a slice.
///
/// Its clauses say which bytes a read returns if they are known, as those of a slice are. The bytes of a file aren't known, and
/// another program may change them meanwhile. They also say whether a read of bytes that the source has may fail, as one of a file
/// may. A call that is proved for all sources swallows no failed read, since it knows nothing of the bytes then.
pub trait ByteSource: Drop {
    /// That its bytes are known, and stay.
    ghost IsKnown: { Type 0 };

    /// The number of its bytes, as it reports it.
    ghost size: { Self → ℕ };

    /// Its bytes, if they are known.
    ghost bytes: { Self → List ℕ };

    /// Whether a read of bytes that it has may fail.
    ghost may_fail: { Bool };

    /// Returns the number of its bytes.
    fn len(&self) -> u64
        ensures { result ≡ size self.now };

    /// Fills the buffer with the bytes from an offset on.
    ///
    /// # Errors
    ///
    /// The error of the read, or an error of the kind `UnexpectedEof` if there are fewer bytes. The contents of the buffer are
    /// then unspecified.
    fn read_exact_at(&self, buffer: &mut [u8], offset: u64) -> io::Result<()>
        ensures bytes { IsKnown →
            OnOk result (buffer.new ≡ bytes_at (bytes self.now) offset (length buffer.old)) }
        ensures failed { offset + length buffer.old ≤ size self.now → IfErr result (λ _. may_fail ≡ true) };

    /// The reported number is the number of known bytes.
    ghost counted: { IsKnown → (source : Self) → size source ≡ length (bytes source) };
}

impl ByteSource for &[u8] {
    ghost IsKnown = { ⊤ };

    ghost size = { λ source. length source.now };

    ghost bytes = { λ source. source.now };

    ghost may_fail = { false };

    ghost counted = { λ _ source. refl };

    fn len(&self) -> u64 {
        <[u8]>::len(self) as u64
    }

    fn read_exact_at(&self, buffer: &mut [u8], offset: u64) -> io::Result<()> {
        let part = usize::try_from(offset)
            .ok()
            .and_then(|at| self.get(at..)?.get(..buffer.len()));
        match part {
            Some(part) => {
                buffer.copy_from_slice(part);
                Ok(())
            }
            None => Err(io::Error::from(ErrorKind::UnexpectedEof)),
        }
    }
}

/// A file, with the length that it had when the source was created.
///
/// Nothing is proved of the bytes that it returns.
#[derive(Drop)]
pub struct FileSource {
    file: File,
    length: u64,
}

impl FileSource {
    /// Creates a source from a file, a block device or another file that can be seeked.
    ///
    /// # Errors
    ///
    /// An error if the length of the file can't be read. For files that are neither regular files nor folders, an error if the end
    /// can't be seeked.
    pub fn new(mut file: File) -> io::Result<FileSource> {
        let about = file.metadata()?;
        let length = if about.is_file() || about.is_dir() {
            about.len()
        } else {
            file.seek(SeekFrom::End(0))?
        };
        Ok(FileSource { file, length })
    }
}

impl ByteSource for FileSource {
    ghost IsKnown = { ⊥ };

    ghost size = { λ source. source.length };

    ghost bytes = { λ _. [] };

    ghost may_fail = { true };

    ghost counted = { λ known _. absurd known };

    fn len(&self) -> u64 {
        self.length
    }

    fn read_exact_at(&self, buffer: &mut [u8], offset: u64) -> io::Result<()> {
        self.file.read_exact_at(buffer, offset)
    }
}

/// Returns true if a part of a file ends after the end of the file.
pub fn ends_after(offset: u64, size: u64, length: u64) -> bool
    ensures { result ≡ nat_lt length (offset + size) }
{
    match offset.checked_add(size) {
        Some(end) => length < end,
        None => true,
    }
}
