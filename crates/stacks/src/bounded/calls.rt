// Calls on a bounded stack. Each says what the stack holds afterwards, and that it still stands over the memory it was lent:
// a model would show the elements alone, so this stays in each contract.
ghost use Rattle.std.specs.Prelude.{◌≡◌, ◌≤◌, [], length, take, is_ok};
ghost use Rattle.std.specs.List.{slice_get};
ghost use Rattle.stacks.specs.Held.{holding, seen, has_room, pushed, top, popped, cut, replaced};

use super::{BoundedStack, Full};

impl<'a, T: Copy> BoundedStack<'a, T> {
    // An empty stack over `items`, as high as there are items.
    pub fn new(items: &'a mut [T]) -> BoundedStack<'a, T>
        ensures empty { seen result ≡ holding [] (length items.old) }
        ensures tied { result.items ≡ items.entry }
    {
        BoundedStack { items, len: 0 }
    }

    // Puts `x` on top; a full stack stays as it is.
    pub fn push(&mut self, x: T) -> Result<(), Full>
        ensures answer { is_ok result ≡ has_room (seen self.old) }
        ensures after { seen self.new ≡ pushed (seen self.old) x }
        ensures tied { self.new.items.ghost_name ≡ self.old.items.ghost_name }
    {
        if self.len < self.items.len() {
            self.items[self.len] = x;
            self.len += 1;
            Ok(())
        } else {
            Err(Full)
        }
    }

    // The elements, the oldest first.
    pub fn as_slice(&self) -> &[T]
        ensures { result.now ≡ (seen self.now).held }
    {
        &self.items[..self.len]
    }

    // The element at `i`, counted from the oldest.
    pub fn get(&self, i: usize) -> Option<T>
        ensures { result ≡ slice_get (seen self.now).held i }
    {
        self.as_slice().get(i).copied()
    }

    // Takes the newest element off.
    pub fn pop(&mut self) -> Option<T>
        ensures answer { result ≡ top (seen self.old) }
        ensures after { seen self.new ≡ popped (seen self.old) }
        ensures tied { self.new.items.ghost_name ≡ self.old.items.ghost_name }
    {
        if self.len == 0 {
            return None;
        }
        self.len -= 1;
        Some(self.items[self.len])
    }

    // Keeps the oldest `n` elements.
    pub fn truncate(&mut self, n: usize)
        ensures after { seen self.new ≡ cut n (seen self.old) }
        ensures tied { self.new.items.ghost_name ≡ self.old.items.ghost_name }
    {
        if n < self.len {
            self.len = n;
        }
    }

    // Replaces the element at `i`; past the top nothing changes.
    pub fn replace(&mut self, i: usize, x: T)
        ensures after { seen self.new ≡ replaced i x (seen self.old) }
        ensures tied { self.new.items.ghost_name ≡ self.old.items.ghost_name }
    {
        if i < self.len {
            self.items[i] = x;
        }
    }
}
