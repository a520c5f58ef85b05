// Words laid down one behind the other, in memory that is lent.
ghost use Rattle.std.specs.Prelude.{◌≡◌, [], ◌++◌, OnOk};
ghost use Rattle.std.specs.List.{repeat};

use std::io;
use std::marker::Model;

// Stays lent: a list that holds the longest, 400,006 words, would be moved from where it is made, and so lie on the stack twice and more.
#[derive(Drop)]
pub struct Words<'a> {
    memory: &'a mut [u64],
    count: usize,
}

impl<'a> Model for Words<'a> {
    ghost use Rattle.std.specs.Prelude.{List, ℕ, ◌≤◌, length, take};

    ghost Value = { List ℕ };

    ghost view = { λ w. take w.count w.memory.now };

    ghost invariant = { λ w. w.count ≤ length w.memory.now };
}

impl<'a> Words<'a> {
    pub(crate) fn new(memory: &'a mut [u64]) -> Words<'a>
        ensures { result ≡ [] }
    {
        Words { memory, count: 0 }
    }

    pub(crate) fn all(&self) -> &[u64]
        ensures { result.now ≡ self.now }
    {
        &self.memory[..self.count]
    }

    pub(crate) fn clear(&mut self)
        ensures { self.new ≡ [] }
    {
        self.count = 0;
    }

    // Words behind the others. That there is room for them is shown by the program's own run.
    pub(crate) fn put(&mut self, more: &[u64]) -> io::Result<()>
        ensures { OnOk result (self.new ≡ self.old ++ more.now) }
    {
        if self.memory.len() - self.count < more.len() {
            return Err(io::Error::from(io::ErrorKind::StorageFull));
        }
        let end = self.count + more.len();
        self.memory[self.count..end].copy_from_slice(more);
        self.count = end;
        Ok(())
    }

    // A layer, so many times.
    pub(crate) fn lay(&mut self, layer: &[u64], times: usize) -> io::Result<()>
        ensures { OnOk result (self.new ≡ self.old ++ repeat times layer.now) }
    {
        for _ in 0..times {
            self.put(layer)?;
        }
        Ok(())
    }
}
