// A tree in a box of its own.
ghost use Rattle.std.specs.Prelude.{◌≡◌, IfOk};

use std::alloc::{AllocFailed, Global};
use std::marker::Model;

/// A part of the tree that stands behind a box, so that what has no such part stays small: each statement takes the place of the
/// widest form, and a text may have 800,000 of them. Contracts see the part, and nothing of the box.
#[derive(Debug, Drop)]
pub struct Boxed<T> {
    part: Box<T>,
}

impl<T> Model for Boxed<T> {
    ghost Value = { T };

    ghost view = { λ boxed. boxed.part.value };
}

impl<T> Boxed<T> {
    /// Puts a part behind a box. Refused, with the part, for want of memory alone.
    pub fn new(alloc: Global, part: T) -> Result<Boxed<T>, AllocFailed<T>>
        ensures { IfOk result (λ boxed. boxed ≡ part) }
    {
        Ok(Boxed {
            part: Box::new(alloc, part)?,
        })
    }

    /// The part.
    pub fn get(&self) -> &T
        ensures { result.now ≡ self.now }
    {
        &self.part
    }
}
