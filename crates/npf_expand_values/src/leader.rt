// The interface that values stand for where one is asked for, as far as it is kept beside them.
ghost use Rattle.std.specs.Prelude.{◌≡◌, None, Option, List, Some, true};
ghost use Rattle.std.specs.Option.{option_map};
ghost use Rattle.npf_expand_values.specs.Atom.{Atom as Plain, kept_atom};
ghost use Rattle.npf_expand_values.specs.Leader.{are_alike, is_alike, is_same_name, joined_leader, shared_name};
ghost use Rattle.npf_expand_values.specs.Kept.{first_atom};

use crate::atom::Atom;

/// The first of values, and whether all have its interface.
#[derive(Clone, Copy)]
pub(crate) struct Leader<'a> {
    pub(crate) first: Option<Atom<'a>>,
    pub(crate) alike: bool,
}

impl<'a> Leader<'a> {
    /// That of no values.
    pub(crate) fn none() -> Leader<'a>
        ensures { result ≡ record { first = None; alike = true } }
    {
        Leader {
            first: None,
            alike: true,
        }
    }

    pub(crate) fn of(atom: Atom<'a>) -> Leader<'a>
        ensures { result ≡ record { first = Some atom.entry; alike = true } }
    {
        Leader {
            first: Some(atom),
            alike: true,
        }
    }

    /// That of both, one behind the other.
    pub(crate) fn join(&self, other: &Leader<'a>) -> Leader<'a>
        ensures { result ≡ joined_leader self.now other.now }
    {
        let alike = are_alike(&self.first, &other.first);
        Leader {
            first: self.first.or(other.first),
            alike: self.alike && (other.alike && alike),
        }
    }

    /// The name of the interface that the values stand for, where they do for one.
    pub(crate) fn name(&self) -> Option<&'a [u8]>
        ensures { (atoms : List Plain) → option_map kept_atom self.now.first ≡ first_atom atoms → self.now.alike ≡ is_alike atoms
            → option_map (λ name. name.now) result ≡ shared_name atoms }
    {
        if !self.alike {
            return None;
        }
        match self.first {
            Some(atom) => atom.name_text(),
            None => None,
        }
    }
}

fn are_alike(one: &Option<Atom>, other: &Option<Atom>) -> bool
    ensures { result ≡ are_alike (option_map kept_atom one.now) (option_map kept_atom other.now) }
{
    match (one, other) {
        (Some(one), Some(other)) => is_same_name(one.name_text(), other.name_text()),
        _ => true,
    }
}

fn is_same_name(one: Option<&[u8]>, other: Option<&[u8]>) -> bool
    ensures { result ≡ is_same_name (option_map (λ name. name.now) one.entry) (option_map (λ name. name.now) other.entry) }
{
    match (one, other) {
        (Some(one), Some(other)) => one == other,
        _ => false,
    }
}
