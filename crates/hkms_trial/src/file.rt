//! A file in memory that knows what a crash may leave of it.
ghost use Rattle.std.specs.Prelude.{◌≡◌, ◌≤◌, length, drop};

use std::alloc::{AllocError, Global};

/// A change since the last sync: at an offset `old` became `new`. What a write overwrites is `old`,
/// and so is what a cut takes away.
#[derive(Drop)]
struct Change {
    at: usize,
    old: Vec<u8>,
    new: Vec<u8>,
}

impl Change {
    /// The file before the change, out of the file after it.
    fn undone(&self, alloc: Global, after: &[u8]) -> Result<Vec<u8>, AllocError> {
        let mut file = front(after, self.at).to_vec(alloc)?;
        file.extend_from_slice(self.old.as_slice())?;
        file.extend_from_slice(rest(after, self.at.saturating_add(self.new.len())))?;
        Ok(file)
    }

    /// The file if half of the change was made: the first half of the new bytes, or of the cut the half
    /// that is nearest to the end.
    fn torn(&self, alloc: Global, after: &[u8]) -> Result<Vec<u8>, AllocError> {
        let mut file = front(after, self.at).to_vec(alloc)?;
        if self.new.is_empty() {
            file.extend_from_slice(front(self.old.as_slice(), self.old.len() / 2))?;
            return Ok(file);
        }
        let half = self.new.len() / 2;
        file.extend_from_slice(front(self.new.as_slice(), half))?;
        file.extend_from_slice(rest(self.old.as_slice(), half))?;
        file.extend_from_slice(rest(after, self.at.saturating_add(self.new.len())))?;
        Ok(file)
    }
}

/// The first `count` bytes, or all if there are fewer.
fn front(bytes: &[u8], count: usize) -> &[u8] {
    &bytes[..count.min(bytes.len())]
}

/// All but the first `count` bytes.
fn rest(bytes: &[u8], count: usize) -> &[u8] {
    &bytes[count.min(bytes.len())..]
}

/// A file, and its changes since the last sync.
#[derive(Drop)]
pub struct TrialFile {
    alloc: Global,
    bytes: Vec<u8>,
    changes: Vec<Change>,
}

impl TrialFile {
    /// A file that was synced.
    pub fn new(alloc: Global, bytes: Vec<u8>) -> TrialFile {
        TrialFile {
            alloc,
            bytes,
            changes: Vec::new(alloc),
        }
    }

    pub fn as_slice(&self) -> &[u8] {
        self.bytes.as_slice()
    }

    /// Copies bytes from an offset to the start of the buffer, as many as fit. Returns how many.
    pub fn read(&self, at: usize, buf: &mut [u8]) -> usize
        ensures count { result ≤ length buf.new }
        ensures rest { drop result buf.new ≡ drop result buf.old }
    {
        let from = rest(self.bytes.as_slice(), at);
        let count = buf.len().min(from.len());
        let (begin, _) = buf.split_at_mut(count);
        begin.copy_from_slice(&from[..count]);
        count
    }

    /// Keeps what a write or a cut takes away.
    fn note(&mut self, at: usize, old_end: usize, new: &[u8]) -> Result<(), AllocError> {
        let old = front(rest(self.bytes.as_slice(), at), old_end.saturating_sub(at));
        let old = old.to_vec(self.alloc)?;
        let new = new.to_vec(self.alloc)?;
        self.changes.push(Change { at, old, new })?;
        Ok(())
    }

    /// Writes at an offset, at most the end.
    pub fn write(&mut self, at: usize, new: &[u8]) -> Result<(), AllocError> {
        if new.is_empty() {
            return Ok(());
        }
        self.note(at, at.saturating_add(new.len()), new)?;
        let covered = new.len().min(self.bytes.len().saturating_sub(at));
        let begin = at.min(self.bytes.len());
        let (_, tail) = self.bytes.split_at_mut(begin);
        let (over, _) = tail.split_at_mut(covered);
        over.copy_from_slice(&new[..covered]);
        self.bytes.extend_from_slice(&new[covered..])?;
        Ok(())
    }

    pub fn cut(&mut self, len: usize) -> Result<(), AllocError> {
        let end = self.bytes.len();
        self.note(len, end, b"")?;
        self.bytes.truncate(len);
        Ok(())
    }

    pub fn sync(&mut self) {
        self.changes.clear();
    }

    /// What a crash may leave: the file as it was written, and with each change since the last sync
    /// torn in half or left out, from the last on.
    pub fn images(&self) -> Result<Vec<Vec<u8>>, AllocError> {
        let mut images = Vec::new(self.alloc);
        let mut file = self.bytes.to_vec(self.alloc)?;
        for change in self.changes.iter().rev() {
            let torn = change.torn(self.alloc, file.as_slice())?;
            let before = change.undone(self.alloc, file.as_slice())?;
            add_image(&mut images, file)?;
            add_image(&mut images, torn)?;
            file = before;
        }
        add_image(&mut images, file)?;
        Ok(images)
    }
}

/// Adds an image that is not there yet.
fn add_image(images: &mut Vec<Vec<u8>>, image: Vec<u8>) -> Result<(), AllocError> {
    if !images.iter().any(|known| *known == image) {
        images.push(image)?;
    }
    Ok(())
}
