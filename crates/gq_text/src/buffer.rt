//! What a text is kept in, and the refusal of a growth.
ghost use Rattle.std.specs.Prelude.{◌≡◌, ℕ, ◌+◌, ◌≤◌, ◌^◌, List, [], ◌++◌, length, take, drop, slice_range, IfOk, OnOk, OnErr};

use crate::bytes::Bytes;
use std::alloc::{AllocError, AllocFailed, Global};
use std::marker::Model;
use thiserror::Error;

/// A growth was refused.
#[derive(Clone, Copy, Debug, PartialEq, Eq, Error)]
#[error("no memory")]
pub struct NoMemory;

impl From<AllocError> for NoMemory {
    fn from(_error: AllocError) -> Self {
        NoMemory
    }
}

impl<T: Drop> From<AllocFailed<T>> for NoMemory {
    fn from(_error: AllocFailed<T>) -> Self {
        NoMemory
    }
}

/// A list of bytes that can be read, and edited in the middle. It keeps the allocator that it was made with.
pub trait Buffer: Bytes + Drop {
    /// A buffer with no bytes. It takes no memory.
    fn empty(alloc: Global) -> Self
        ensures { Self.contents result ≡ [] };

    /// Puts the bytes in front of the one at `at`, all of them or none.
    fn insert(&mut self, at: usize, bytes: &[u8]) -> Result<(), NoMemory>
        requires in_bounds { at ≤ length (Self.contents self.old) }
        requires fits { length (Self.contents self.old) + length bytes.now ≤ 2 ^ 30 }
        ensures ok { OnOk result (Self.contents self.new ≡ take at (Self.contents self.old) ++ bytes.now ++ drop at (Self.contents self.old)) }
        ensures err { OnErr result (Self.contents self.new ≡ Self.contents self.old) };

    /// Takes out `count` bytes from `at` on. It takes no memory.
    fn remove(&mut self, at: usize, count: usize)
        requires { at + count ≤ length (Self.contents self.old) }
        ensures { Self.contents self.new ≡ take at (Self.contents self.old) ++ drop (at + count) (Self.contents self.old) };

    /// A copy of the bytes from `from` up to `to`.
    fn copy_out(&self, alloc: Global, from: usize, to: usize) -> Result<Vec<u8>, NoMemory>
        requires ordered { from ≤ to }
        requires in_bounds { to ≤ length (Self.contents self.now) }
        ensures { IfOk result (λ copy. copy.items ≡ slice_range (Self.contents self.now) from to) };
}

/// A buffer whose bytes lie in a `Vec`.
#[derive(Drop)]
pub struct VecBuffer {
    bytes: Vec<u8>,
}

impl Model for VecBuffer {
    ghost Value = { List ℕ };

    ghost view = { λ b. b.bytes.items };
}

impl VecBuffer {
    /// A buffer of the bytes of a `Vec`. It takes no memory.
    pub fn from_vec(bytes: Vec<u8>) -> VecBuffer
        ensures { result ≡ bytes.items }
    {
        VecBuffer { bytes }
    }
}

impl Bytes for VecBuffer {
    ghost contents = { λ b. b };

    fn len(&self) -> usize {
        self.bytes.len()
    }

    fn byte(&self, index: usize) -> u8 {
        self.bytes[index]
    }
}

impl Buffer for VecBuffer {
    fn empty(alloc: Global) -> Self {
        VecBuffer {
            bytes: Vec::new(alloc),
        }
    }

    fn insert(&mut self, at: usize, bytes: &[u8]) -> Result<(), NoMemory> {
        insert_into(&mut self.bytes, at, bytes)
    }

    fn remove(&mut self, at: usize, count: usize) {
        remove_from(&mut self.bytes, at, count);
    }

    fn copy_out(&self, alloc: Global, from: usize, to: usize) -> Result<Vec<u8>, NoMemory> {
        Ok(Vec::from_slice(alloc, &self.bytes[from..to])?)
    }
}

fn insert_into(all: &mut Vec<u8>, at: usize, bytes: &[u8]) -> Result<(), NoMemory>
    requires in_bounds { at ≤ length all.old.items }
    requires fits { length all.old.items + length bytes.now ≤ 2 ^ 30 }
    ensures ok { OnOk result (all.new.items ≡ take at all.old.items ++ bytes.now ++ drop at all.old.items) }
    ensures err { OnErr result (all.new.items ≡ all.old.items) }
{
    all.extend_from_slice(bytes)?;
    all[at..].rotate_right(bytes.len());
    Ok(())
}

fn remove_from(all: &mut Vec<u8>, at: usize, count: usize)
    requires { at + count ≤ length all.old.items }
    ensures { all.new.items ≡ take at all.old.items ++ drop (at + count) all.old.items }
{
    all[at..].rotate_left(count);
    let left = all.len() - count;
    all.truncate(left);
}
