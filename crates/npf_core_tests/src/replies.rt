use crate::words::way_text;
use npf_core::{Found, Held, Reply, Stepped};
use std::fmt;

/// What the machine of connections answers, in a word or two.
#[derive(Drop)]
pub struct Told<'a, R>(pub &'a Reply<R>);

impl<R: fmt::Display> fmt::Display for Told<'_, R> {
    fn fmt<W: fmt::Write>(&self, f: &mut fmt::Formatter<W>) -> fmt::Result {
        match self.0 {
            Reply::Nothing => write!(f, "done"),
            Reply::ToClaim(id) => write!(f, "{}.{}", id.slot, id.inc),
            Reply::ToLook(None) => write!(f, "nobody"),
            Reply::ToLook(Some(found)) => write_found(f, found),
            Reply::ToHold(Held::Done) => write!(f, "held"),
            Reply::ToHold(Held::Taken(found)) => {
                write!(f, "taken by ")?;
                write_found(f, found)
            }
            Reply::ToHold(Held::NoNode) => write!(f, "no node"),
            Reply::ToStep(Stepped::Done { reply, place }) => write!(f, "{reply} at {place}"),
            Reply::ToStep(Stepped::NotLive) => write!(f, "not live"),
        }
    }
}

fn write_found<W: fmt::Write>(f: &mut fmt::Formatter<W>, found: &Found) -> fmt::Result {
    write!(
        f,
        "{}.{} {}",
        found.id.slot,
        found.id.inc,
        way_text(found.way)
    )
}
