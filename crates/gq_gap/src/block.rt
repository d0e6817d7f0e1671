//! The block: a row of places in one allocation, reached by a pointer here and in core's `Slots` alone.
ghost use Rattle.std.specs.Prelude.{◌≡◌, ℕ, ◌+◌, ◌<◌, ◌≤◌, take, drop, slice_range, IfOk};
ghost use Rattle.std.specs.Vec.Ownership.{FitsInBlock};
ghost use Rattle.std.specs.Mem.Slots.{slots_ptr, slots_len, slots_items, slots_filled};
ghost use Rattle.std.specs.Mem.Slots.Ownership.{Filled};
ghost use denote.RawPtr.{Ptr};
ghost use Rattle.gq_gap.specs.Ownership.{deed_owns};

use core::slots::Slots;
use std::alloc::{AllocError, Allocator};
use std::marker::{Model, PhantomData};
use std::mem::{align_of, size_of};
use std::slice;

/// Where the block begins. It owns nothing.
#[derive(Clone, Copy)]
pub struct Base<T> {
    ptr: *mut T,
}

/// The right to give the block of `len` places at `at` back to `alloc`. It takes no space.
pub struct Deed<T, A: Allocator> {
    mark: PhantomData<*const (T, A)>,
    ghost at: { Ptr },
    ghost len: { ℕ },
    ghost alloc: { A },
}

impl<T, A: Allocator> Model for Deed<T, A> {
    ghost also_owns = { λ d. deed_owns T.row (A.dealloc_token d.alloc) d.at d.len };
}

/// A new block of `len` empty places. An empty place has a value in the logic, so the clause asks for one.
pub(crate) fn allocate<T, A: Allocator>(
    alloc: &A,
    len: usize,
) -> Result<(Base<T>, Slots<T>, Deed<T, A>), AllocError>
    requires { FitsInBlock T.row len × T }
    ensures { IfOk result (λ r. (slots_ptr r.1 ≡ r.0.ptr) × (slots_len r.1 ≡ len) × (r.2.at ≡ r.0.ptr) × (r.2.len ≡ len) × (r.2.alloc ≡ alloc.now)) }
{
    match alloc.allocate(len * size_of::<T>(), align_of::<T>()) {
        Ok(block) => {
            let ptr = block as *mut T;
            let row = unsafe { Slots::from_raw_parts(ptr, len) };
            Ok((Base { ptr }, row, Deed { mark: PhantomData }))
        }
        Err(error) => Err(error),
    }
}

/// Gives the block back. A value in it is forgotten.
pub(crate) fn deallocate<T, A: Allocator>(alloc: &A, row: Slots<T>, deed: Deed<T, A>)
    requires { (deed.at ≡ slots_ptr row) × (deed.len ≡ slots_len row) × (deed.alloc ≡ alloc.now) }
{
    let Deed { mark: _ } = deed;
    unsafe {
        let (ptr, len) = row.into_raw_parts();
        alloc.deallocate(ptr as *mut u8, len * size_of::<T>(), align_of::<T>());
    }
}

/// The `len` values from the place `from` on, at least one.
fn values_from<T>(row: &Slots<T>, base: Base<T>, from: usize, len: usize) -> &[T]
    requires { (base.ptr ≡ slots_ptr row.now) × (0 < len) × (from + len ≤ slots_len row.now) × Filled (slots_filled row.now) from (from + len) }
    ensures { result.now ≡ take len (drop from (slots_items row.now)) }
{
    unsafe { slice::from_raw_parts(base.ptr.add(from), len) }
}

/// The values from the place `from` up to the place `to`.
pub(crate) fn part<T>(row: &Slots<T>, base: Base<T>, from: usize, to: usize) -> &[T]
    requires { (base.ptr ≡ slots_ptr row.now) × (from ≤ to) × (to ≤ slots_len row.now) × Filled (slots_filled row.now) from to }
    ensures { result.now ≡ slice_range (slots_items row.now) from to }
{
    if from == to {
        return &[];
    }
    values_from(row, base, from, to - from)
}
