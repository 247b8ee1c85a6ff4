// The stack: its elements are the first `len` of the lent ones.
ghost use Rattle.std.specs.Prelude.{◌≤◌, length};

mod calls;
mod height;

// There is no room for one more element.
#[derive(Clone, Copy, PartialEq, Eq, Debug)]
pub struct Full;

// The memory is the caller's, since there is no heap, so how many elements there are stands beside it.
#[derive(Drop)]
pub struct BoundedStack<'a, T> {
    items: &'a mut [T],
    len: usize,
    ghost fits: { len ≤ length items.now },
}
