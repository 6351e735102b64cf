//! Values that lines name.
use nm_types::Memory;
use std::alloc::Global;

/// A value and its name.
#[derive(Drop)]
struct Entry<T> {
    name: Vec<u8>,
    value: T,
}

/// Values by their names.
#[derive(Drop)]
pub(crate) struct Named<T> {
    entries: Vec<Entry<T>>,
}

impl<T: Drop> Named<T> {
    /// No value.
    pub(crate) fn new(alloc: Global) -> Named<T> {
        Named {
            entries: Vec::new(alloc),
        }
    }

    // Where the value of that name stands.
    fn place(&self, name: &[u8]) -> Option<usize> {
        for at in 0..self.entries.len() {
            if self.entries[at].name.as_slice() == name {
                return Some(at);
            }
        }
        None
    }

    /// The value of that name.
    pub(crate) fn get(&self, name: &[u8]) -> Option<&T> {
        let at = self.place(name)?;
        Some(&self.entries.get(at)?.value)
    }

    /// The same, to change it.
    pub(crate) fn get_mut(&mut self, name: &[u8]) -> Option<&mut T> {
        let at = self.place(name)?;
        Some(&mut self.entries.get_mut(at)?.value)
    }

    /// Takes the value of that name out.
    pub(crate) fn take(&mut self, name: &[u8]) -> Option<T> {
        let at = self.place(name)?;
        if at < self.entries.len() {
            return Some(self.entries.remove(at).value);
        }
        None
    }

    /// From now on that name is that value's.
    pub(crate) fn put(&mut self, name: &[u8], value: T) -> Result<(), Memory> {
        drop(self.take(name));
        let name = Vec::from_slice(*self.entries.allocator(), name)?;
        Ok(self.entries.push(Entry { name, value })?)
    }
}
