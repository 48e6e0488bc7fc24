//! Room at the end of a list.
ghost use Rattle.std.specs.Prelude.{◌≡◌, ◌+◌, ◌≤◌, ◌++◌, ◌∷◌};
ghost use Rattle.std.specs.Prelude.{[], IfOk, IfErr, vec_len, vec_capacity};

use std::alloc::AllocError;

/// Puts an item behind the others. A search does so for each cell that it reaches, and `push` is
/// too large to be compiled in place.
#[inline(always)]
pub fn put_last<T: Copy>(items: &mut Vec<T>, item: T) -> Result<(), AllocError>
    ensures put { IfOk result (λ _. items.new.items ≡ items.old.items ++ item ∷ []) }
    ensures none { IfErr result (λ _. items.new.items ≡ items.old.items) }
{
    if items.len() >= items.capacity() {
        make_room(items)?;
    }
    items.push_reserved(item);
    Ok(())
}

/// Makes room for one item more.
#[cold]
#[inline(never)]
fn make_room<T: Copy>(items: &mut Vec<T>) -> Result<(), AllocError>
    ensures room { IfOk result (λ _. vec_len items.new + 1 ≤ vec_capacity items.new) }
    ensures items { items.new.items ≡ items.old.items }
{
    items.reserve(1)
}
