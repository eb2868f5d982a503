// The tables of one configuration among those of several.
ghost use Rattle.std.specs.Prelude.{◌<◌, ◌+◌, ◌^◌};

/// The tables of a configuration: so many from a first one on, where those of several configurations stand one behind the other.
#[derive(Clone, Copy)]
pub struct TableSpan {
    pub first: usize,
    pub count: usize,
    ghost bounded: { first + count < 2 ^ 64 },
}
