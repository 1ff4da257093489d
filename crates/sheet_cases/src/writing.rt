//! Sheets in the making, right or wrong.
use sheet::{Sheet, SheetRefusal, read_sheet};
use std::alloc::{AllocError, Global};

/// The words of a sheet, each as four bytes, the highest first.
#[derive(Drop)]
pub struct Writing {
    bytes: Vec<u8>,
}

impl Writing {
    /// The first three words: an identity, and Function Block 1.
    pub fn new(alloc: Global) -> Result<Writing, AllocError> {
        let mut writing = Writing {
            bytes: Vec::new(alloc),
        };
        writing.put(0x1FA0_0000)?;
        writing.put(0x2040_8000)?;
        writing.put(0x3000_0081)?;
        Ok(writing)
    }

    /// One more word.
    pub fn put(&mut self, word: u32) -> Result<(), AllocError> {
        self.bytes.extend_from_slice(&word.to_be_bytes())
    }

    /// Another word in place of one.
    pub fn change(&mut self, at: usize, word: u32) {
        if let Some(place) = self.bytes.chunks_exact_mut(4).nth(at) {
            place.copy_from_slice(&word.to_be_bytes());
        }
    }

    /// An entry of two words: its kind, an address or set, an ID that ends with a number, and its state.
    // All by number and not by an enum, as a sheet in the making may be wrong in each.
    pub fn entry(&mut self, kind: u8, head: u8, number: u8, state: u8) -> Result<(), AllocError> {
        self.put(u32::from(kind % 16) * 0x1000_0000 + u32::from(head % 128) * 0x20_0000)?;
        self.put(0x5000_0000 + u32::from(number % 128) * 0x4000 + u32::from(state % 128))
    }

    /// So many entries of a kind, with IDs that rise, at an address or in a set.
    pub fn entries(&mut self, kind: u8, head: u8, count: u8) -> Result<(), AllocError> {
        for number in 0..count {
            self.entry(kind, head, number, 0)?;
        }
        Ok(())
    }

    /// The end, with the number of words before it.
    pub fn end(&mut self) -> Result<(), AllocError> {
        let before = self.bytes.len() / 4 % 0x1000;
        // By `as`, as there is no `From` between them: twelve bits always fit.
        self.put(0x8000_0000 + before as u32)
    }

    /// What reading answers to the first so many bytes.
    pub fn read_bytes(&self, length: usize) -> Result<Sheet, SheetRefusal> {
        read_sheet(&self.bytes[..length.min(self.bytes.len())])
    }

    /// What reading answers to the words.
    pub fn read(&self) -> Result<Sheet, SheetRefusal> {
        read_sheet(&self.bytes)
    }
}
