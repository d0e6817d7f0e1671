//! A block with a gap: what stands in front of the gap lies in the block's first places, what stands behind it in its last.
ghost use Rattle.std.specs.Prelude.{◌≡◌, ◌+◌, ◌^◌, ◌<◌, ◌≤◌, [], ◌++◌, length, take, drop, slice_index, IfOk};
ghost use Rattle.gq_gap.specs.Parted.{parted};

use crate::block::{Base, Deed, allocate, deallocate, part};
use core::slots::Slots;
use std::alloc::{AllocError, Global};
use std::marker::Model;

/// A block of bytes, and the places at which its gap starts and ends.
pub struct Gap {
    base: Base<u8>,
    row: Slots<u8>,
    deed: Deed<u8, Global>,
    start: usize,
    end: usize,
    alloc: Global,
}

impl Model for Gap {
    ghost use Rattle.std.specs.Prelude.{take, drop};
    ghost use Rattle.std.specs.Mem.Slots.{slots_len, slots_items};
    ghost use Rattle.gq_gap.specs.Parted.{Parted, parted, parted_code};
    ghost use Rattle.gq_gap.specs.Helping.Gapped.{IsBlock, IsGap};

    ghost Value = { Parted };

    ghost coded = { parted_code };

    ghost view = { λ g. parted (take g.start (slots_items g.row)) (drop g.end (slots_items g.row)) (slots_len g.row) };

    ghost invariant = { λ g. IsBlock g.base g.row g.deed g.alloc × IsGap g.row g.start g.end };
}

impl Gap {
    /// A block that is all gap.
    pub(crate) fn new(alloc: Global, capacity: usize) -> Result<Gap, AllocError>
        requires { capacity ≤ 2 ^ 31 }
        ensures { IfOk result (λ g. g ≡ parted [] [] capacity) }
    {
        let (base, row, deed) = allocate(&alloc, capacity)?;
        Ok(Gap {
            base,
            row,
            deed,
            start: 0,
            end: capacity,
            alloc,
        })
    }

    /// How many bytes the block holds.
    pub(crate) fn capacity(&self) -> usize
        ensures capacity { result ≡ self.now.capacity }
        ensures within { length self.now.front + length self.now.back ≤ result }
    {
        self.row.len()
    }

    /// How many bytes stand in front of the gap and behind it.
    pub(crate) fn len(&self) -> usize
        ensures { result ≡ length self.now.front + length self.now.back }
    {
        self.start + (self.row.len() - self.end)
    }

    /// The byte at an index, with the gap left out.
    pub(crate) fn byte(&self, index: usize) -> u8
        requires { index < length (self.now.front ++ self.now.back) }
        ensures { result ≡ slice_index (self.now.front ++ self.now.back) index }
    {
        if index < self.start {
            *self.row.get(index)
        } else {
            *self.row.get(self.end + (index - self.start))
        }
    }

    /// The bytes in front of the gap, and those behind it.
    pub(crate) fn halves(&self) -> (&[u8], &[u8])
        ensures { (result.0.now ≡ self.now.front) × (result.1.now ≡ self.now.back) }
    {
        (
            part(&self.row, self.base, 0, self.start),
            part(&self.row, self.base, self.end, self.row.len()),
        )
    }

    /// Moves the gap so that `at` bytes stand in front of it. Only the bytes between are moved.
    pub(crate) fn move_to(&mut self, at: usize)
        requires { at ≤ length (self.old.front ++ self.old.back) }
        ensures { let all = self.old.front ++ self.old.back in self.new ≡ parted (take at all) (drop at all) self.old.capacity }
    {
        if at < self.start {
            let count = self.start - at;
            self.end -= count;
            self.row.move_within(at, self.end, count);
        } else {
            let count = at - self.start;
            self.row.move_within(self.end, self.start, count);
            self.end += count;
        }
        self.start = at;
    }

    /// Puts the bytes at the start of the gap.
    pub(crate) fn copy_in(&mut self, bytes: &[u8])
        requires { length self.old.front + length bytes.now + length self.old.back ≤ self.old.capacity }
        ensures { self.new ≡ parted (self.old.front ++ bytes.now) self.old.back self.old.capacity }
    {
        self.row.copy_in(self.start, bytes);
        self.start += bytes.len();
    }

    /// Puts the bytes at the end of the gap.
    pub(crate) fn copy_behind(&mut self, bytes: &[u8])
        requires { length self.old.front + length bytes.now + length self.old.back ≤ self.old.capacity }
        ensures { self.new ≡ parted self.old.front (bytes.now ++ self.old.back) self.old.capacity }
    {
        self.end -= bytes.len();
        self.row.copy_in(self.end, bytes);
    }

    /// Adds the first `count` bytes behind the gap to it.
    pub(crate) fn forget(&mut self, count: usize)
        requires { count ≤ length self.old.back }
        ensures { self.new ≡ parted self.old.front (drop count self.old.back) self.old.capacity }
    {
        self.end += count;
    }
}

impl Drop for Gap {
    fn drop(self) {
        let Gap {
            base: _,
            row,
            deed,
            start: _,
            end: _,
            alloc,
        } = self;
        deallocate(&alloc, row, deed);
    }
}
