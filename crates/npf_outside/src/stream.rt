// What a sink may stand over.
ghost use Rattle.std.specs.Prelude.{◌≡◌, is_some, refl};

use std::io::{Printer, Stderr, Write};

/// A writer that always tells what it holds, or never does.
pub trait Stream: Write + Drop {
    ghost steady: { (one other : Self) → is_some (Self.contents one) ≡ is_some (Self.contents other) };
}

impl<'a, P: Print> Stream for Printer<'a, P> {
    ghost steady = { λ one other. refl };
}

impl Stream for Stderr {
    ghost steady = { λ one other. refl };
}
