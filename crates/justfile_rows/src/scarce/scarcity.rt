//! Scarce memory.

use std::alloc::{AllocError, Global};

/// The size of the largest blocks that are taken, in bytes: 64 GB.
const LARGEST: usize = 0x10_0000_0000;

/// The size of the smallest blocks that are taken, in bytes.
const SMALLEST: usize = 16;

/// Below this size in bytes, the system keeps free blocks only for requests of their own size, so
/// blocks of each size are taken.
const FINE: usize = 1040;

/// More bytes than any call needs.
pub(crate) const AMPLE: usize = 0x1_8000;

/// How many bytes can be given back.
const RESERVE: usize = 0x200_0000;

/// How many blocks are taken for good at most.
const MOST_FOR_GOOD: usize = 200_000;

/// How many blocks of the reserve are taken at most.
const MOST_OF_RESERVE: usize = 20_000;

/// Blocks that occupy all memory except what the calls get.
#[derive(Drop)]
pub(crate) struct Scarcity {
    for_good: Vec<Vec<u8>>,
    of_reserve: Vec<Vec<u8>>,
}

impl Scarcity {
    /// Takes all memory except the reserve.
    pub(crate) fn new(alloc: Global) -> Result<Self, AllocError> {
        let mut for_good = Vec::with_capacity(alloc, MOST_FOR_GOOD)?;
        let of_reserve = Vec::with_capacity(alloc, MOST_OF_RESERVE)?;
        let mut reserve = Vec::with_capacity(alloc, 1)?;
        take(alloc, RESERVE, &mut reserve);
        take_all(alloc, LARGEST, &mut for_good);
        Ok(Scarcity {
            for_good,
            of_reserve,
        })
    }

    /// Takes no memory. Calls are then to be made with an ample size.
    pub(crate) fn none(alloc: Global) -> Self {
        Scarcity {
            for_good: Vec::new(alloc),
            of_reserve: Vec::new(alloc),
        }
    }

    /// Takes all of the reserve except a block of about `size` bytes, or nothing if `size` is
    /// ample. To free that block, gives back a longer one and takes its beginning again, because a
    /// short block would only serve requests of its own size.
    pub(crate) fn leave(&mut self, alloc: Global, size: usize) {
        if size >= AMPLE {
            return;
        }
        if let Ok(block) = Vec::with_capacity(alloc, size.saturating_add(FINE)) {
            let _ = self.of_reserve.push(block);
        }
        take_all(alloc, RESERVE, &mut self.of_reserve);
        if !self.of_reserve.is_empty() {
            let _ = self.of_reserve.swap_remove(0);
        }
        if let Ok(beginning) = Vec::with_capacity(alloc, FINE) {
            let _ = self.of_reserve.push(beginning);
        }
    }

    /// Gives back the reserve.
    pub(crate) fn end(&mut self) {
        self.of_reserve.clear();
    }
}

/// Takes blocks of one size as long as there are some, and room for them in `blocks`.
fn take(alloc: Global, size: usize, blocks: &mut Vec<Vec<u8>>) {
    for _ in blocks.len()..blocks.capacity() {
        match Vec::with_capacity(alloc, size) {
            Ok(block) => {
                let _ = blocks.push(block);
            }
            Err(_) => return,
        }
    }
}

/// Takes the memory that is left, in blocks of at most `largest` bytes.
fn take_all(alloc: Global, largest: usize, blocks: &mut Vec<Vec<u8>>) {
    let mut size = largest;
    for _ in 0u32..200 {
        take(alloc, size, blocks);
        if size <= SMALLEST {
            return;
        }
        size = if size > FINE {
            size / 2
        } else {
            size - SMALLEST
        };
    }
}
