//! The bytes of a file, which several may have.

ghost use Rattle.std.specs.Prelude.{◌≡◌, ◌++◌, ◌+◌, ◌^◌, ◌<◌, ◌≤◌, length, take, IfOk, OnOk, OnErr};
ghost use Rattle.ftp_base.specs.Storage.{cut, ReadsFrom};

use std::alloc::{AllocError, Global};
use std::marker::Model;
use std::sync::Arc;

/// The bytes of a file. Whoever shares them keeps them as they are, whatever is written to the file.
#[derive(Drop)]
pub struct FileBytes {
    bytes: Arc<Vec<u8>, Global>,
}

impl Model for FileBytes {
    ghost use Rattle.std.specs.Prelude.{ℕ, List};
    ghost use Rattle.std.specs.Arc.{arc_value};

    ghost Value = { List ℕ };

    ghost view = { λ b. (arc_value b.bytes).items };
}

impl FileBytes {
    /// Takes over the bytes of a vector.
    ///
    /// # Proved
    ///
    /// - Bytes of a file are shared as they are, and read from a place on, none exactly at or past the end, where there is room
    ///   for them (also `FileBytes::share`; `FileBytes::as_slice`; `FileBytes::read_at`: `within`, `in_range`, `read`).
    pub fn new(alloc: Global, bytes: Vec<u8>) -> Result<FileBytes, AllocError>
        ensures { IfOk result (λ made. made ≡ bytes.items) }
    {
        match Arc::new(alloc, bytes) {
            Ok(bytes) => Ok(FileBytes { bytes }),
            Err(_) => Err(AllocError),
        }
    }

    /// The same bytes, for one more who has them.
    pub fn share(&self) -> Result<FileBytes, AllocError>
        ensures { IfOk result (λ shared. shared ≡ self.now) }
    {
        Ok(FileBytes {
            bytes: Arc::try_clone(&self.bytes)?,
        })
    }

    /// Lends the bytes.
    pub fn as_slice(&self) -> &[u8]
        ensures { result.now ≡ self.now }
    {
        self.bytes.as_slice()
    }

    /// Copies what stands from a place on to the front of `out`, and says how many bytes.
    pub fn read_at(&self, at: u64, out: &mut [u8]) -> usize
        ensures within { result ≤ length out.new }
        ensures in_range { at + result < 2 ^ 64 }
        ensures read { ReadsFrom at result out.new self.now }
    {
        let bytes = self.as_slice();
        let len = bytes.len() as u64;
        if at >= len {
            return 0;
        }
        let rest = &bytes[at as usize..];
        let n = rest.len().min(out.len());
        out[..n].copy_from_slice(&rest[..n]);
        n
    }

    // A copy of the bytes up to a place.
    fn front(&self, place: usize) -> Result<Vec<u8>, AllocError>
        ensures { IfOk result (λ front. front.items ≡ take place self.now) }
    {
        let bytes = self.as_slice();
        Vec::from_slice(*self.bytes.allocator(), &bytes[..place.min(bytes.len())])
    }

    // Leaves the bytes to those who have them too, and has these.
    fn replace(&mut self, bytes: Vec<u8>) -> Result<(), AllocError>
        ensures replaced { OnOk result (self.new ≡ bytes.items) }
        ensures unchanged { OnErr result (self.new ≡ self.old) }
    {
        *self = FileBytes::new(*bytes.allocator(), bytes)?;
        Ok(())
    }

    /// Cuts the bytes at a place, or fills them with zeros up to there.
    pub(crate) fn cut(&mut self, start: usize) -> Result<(), AllocError>
        ensures begun { OnOk result (self.new ≡ cut self.old start) }
        ensures unchanged { OnErr result (self.new ≡ self.old) }
    {
        match Arc::get_mut(&mut self.bytes) {
            Some(bytes) => bytes.resize(start, 0),
            None => {
                let mut bytes = self.front(start)?;
                bytes.resize(start, 0)?;
                self.replace(bytes)
            }
        }
    }

    /// Puts bytes at the end.
    pub(crate) fn grow(&mut self, bytes: &[u8]) -> Result<(), AllocError>
        ensures grown { OnOk result (self.new ≡ self.old ++ bytes.now) }
        ensures unchanged { OnErr result (self.new ≡ self.old) }
    {
        match Arc::get_mut(&mut self.bytes) {
            Some(had) => had.extend_from_slice(bytes),
            None => {
                let mut grown = Vec::from_slice(*self.bytes.allocator(), self.as_slice())?;
                grown.extend_from_slice(bytes)?;
                self.replace(grown)
            }
        }
    }
}
