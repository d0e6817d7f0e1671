//! `GapBuffer`: bytes that are edited where the gap is. A clause sees its `bytes` and its `capacity`.
ghost use Rattle.std.specs.Prelude.{◌≡◌, ◌↔◌, ◌+◌, ◌*◌, ◌^◌, ◌≤◌, ◌<◌, max, [], ◌++◌, length, take, drop, slice_range, IfOk, OnOk, OnErr, IsOk, IsTrue};
ghost use Rattle.gq_gap.specs.Buffered.{buffered};

use crate::gap::Gap;
use gq_text::{Buffer, Bytes, NoMemory};
use std::alloc::Global;
use std::marker::Model;

/// A list of bytes in one block, with a gap that moves to where it is edited. With no capacity it has no block.
#[derive(Drop)]
pub struct GapBuffer {
    block: Option<Gap>,
    alloc: Global,
}

impl Model for GapBuffer {
    ghost use Rattle.gq_gap.specs.Buffered.{Buffered, buffered_code};
    ghost use Rattle.gq_gap.specs.Parted.{of_block};

    ghost Value = { Buffered };

    ghost coded = { buffered_code };

    ghost view = { λ b. of_block b.block };
}

impl GapBuffer {
    /// An empty buffer with room for `capacity` bytes. It takes one block of that size, and none at 0; an error says that the
    /// block was refused.
    pub fn with_capacity(alloc: Global, capacity: usize) -> Result<GapBuffer, NoMemory>
        requires { capacity ≤ 2 ^ 30 }
        ensures value { IfOk result (λ b. b ≡ buffered [] capacity) }
        ensures zero { capacity ≡ 0 → IsOk result }
    {
        let block = if capacity == 0 {
            None
        } else {
            Some(Gap::new(alloc, capacity)?)
        };
        Ok(GapBuffer { block, alloc })
    }

    /// For how many bytes there is room, those that are there among them. It takes no memory.
    pub fn capacity(&self) -> usize
        ensures capacity { result ≡ self.now.capacity }
        ensures within { length self.now.bytes ≤ result }
    {
        match &self.block {
            None => 0,
            Some(gap) => gap.capacity(),
        }
    }

    /// The bytes in front of the gap, and those behind it. It takes no memory.
    pub fn halves(&self) -> (&[u8], &[u8])
        ensures { result.0.now ++ result.1.now ≡ self.now.bytes }
    {
        match &self.block {
            None => (&[], &[]),
            Some(gap) => gap.halves(),
        }
    }

    /// Whether these are its bytes, compared where they lie. It takes no memory.
    pub fn has_bytes(&self, bytes: &[u8]) -> bool
        ensures { IsTrue result ↔ (bytes.now ≡ self.now.bytes) }
    {
        let (front, back) = self.halves();
        if bytes.len() < front.len() {
            return false;
        }
        let (first, rest) = bytes.split_at(front.len());
        first == front && rest == back
    }

    /// Moves the bytes to a larger block. The gap stays where it is, and an error leaves all as it was.
    fn grow(&mut self, capacity: usize) -> Result<(), NoMemory>
        requires { (length self.old.bytes ≤ capacity) × (capacity ≤ 2 ^ 31) }
        ensures ok { OnOk result (self.new ≡ buffered self.old.bytes capacity) }
        ensures err { OnErr result (self.new ≡ self.old) }
    {
        let mut gap = Gap::new(self.alloc, capacity)?;
        let (front, back) = self.halves();
        gap.copy_in(front);
        gap.copy_behind(back);
        self.block = Some(gap);
        Ok(())
    }
}

impl Bytes for GapBuffer {
    ghost contents = { λ b. b.bytes };

    fn len(&self) -> usize {
        match &self.block {
            None => 0,
            Some(gap) => gap.len(),
        }
    }

    fn byte(&self, index: usize) -> u8 {
        match &self.block {
            None => unreachable!(),
            Some(gap) => gap.byte(index),
        }
    }
}

impl Buffer for GapBuffer {
    fn empty(alloc: Global) -> Self
        ensures { result ≡ buffered [] 0 }
    {
        GapBuffer { block: None, alloc }
    }

    /// Where there is room it takes no memory and succeeds. Else the block grows to twice its size, or to what is wanted if that
    /// is more; an error leaves all as it was.
    fn insert(&mut self, at: usize, bytes: &[u8]) -> Result<(), NoMemory>
        requires in_bounds { at ≤ length self.old.bytes }
        requires fits { length self.old.bytes + length bytes.now ≤ 2 ^ 30 }
        ensures ok { OnOk result (self.new.bytes ≡ take at self.old.bytes ++ bytes.now ++ drop at self.old.bytes) }
        ensures err { OnErr result (self.new ≡ self.old) }
        ensures room { length self.old.bytes + length bytes.now ≤ self.old.capacity → IsOk result × (self.new.capacity ≡ self.old.capacity) }
        ensures grown { self.old.capacity < length self.old.bytes + length bytes.now → OnOk result (self.new.capacity ≡ max (2 * self.old.capacity) (length self.old.bytes + length bytes.now)) }
    {
        let wanted = self.len() + bytes.len();
        let capacity = self.capacity();
        if capacity < wanted {
            self.grow(wanted.max(2 * capacity))?;
        }
        if let Some(gap) = &mut self.block {
            gap.move_to(at);
            gap.copy_in(bytes);
        }
        Ok(())
    }

    fn remove(&mut self, at: usize, count: usize)
        requires { at + count ≤ length self.old.bytes }
        ensures { self.new ≡ buffered (take at self.old.bytes ++ drop (at + count) self.old.bytes) self.old.capacity }
    {
        if let Some(gap) = &mut self.block {
            gap.move_to(at);
            gap.forget(count);
        }
    }

    fn copy_out(&self, alloc: Global, from: usize, to: usize) -> Result<Vec<u8>, NoMemory> {
        let (front, back) = self.halves();
        let cut = front.len();
        let mut copy = Vec::with_capacity(alloc, to - from)?;
        copy.extend_from_slice(&front[from.min(cut)..to.min(cut)])?;
        copy.extend_from_slice(&back[from.max(cut) - cut..to.max(cut) - cut])?;
        Ok(copy)
    }
}
