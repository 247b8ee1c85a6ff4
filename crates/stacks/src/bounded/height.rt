// How high a stack is.
ghost use Rattle.std.specs.Prelude.{◌≡◌, length};
ghost use Rattle.stacks.specs.Held.{seen};

use super::BoundedStack;

impl<'a, T: Copy> BoundedStack<'a, T> {
    // How many elements there are.
    pub fn len(&self) -> usize
        ensures { result ≡ length (seen self.now).held }
    {
        self.len
    }
}
