use npf_precedence::RuleEntry;
use npf_types::Dir;
use std::fmt;

/// A rule's number, from 1, and behind it in parentheses the direction and the interface that its group is bound to, where it is.
#[derive(Clone, Copy)]
pub struct Numbered<'a>(pub RuleEntry<'a>);

impl fmt::Display for Numbered<'_> {
    fn fmt<W: fmt::Write>(&self, f: &mut fmt::Formatter<W>) -> fmt::Result {
        let Numbered(entry) = self;
        write!(f, "{}", entry.place.saturating_add(1))?;
        match entry.group_dir {
            Some(Dir::In) => write!(f, "(in)")?,
            Some(Dir::Out) => write!(f, "(out)")?,
            None => {}
        }
        match entry.group_on {
            Some(on) => write!(f, "({})", on.name.as_bytes().escape_ascii()),
            None => Ok(()),
        }
    }
}
