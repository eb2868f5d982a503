// Names by their first places, through a hash map: a text may have as many names as lines, each to be found.
ghost use Rattle.std.specs.Prelude.{◌≡◌, ◌<◌, ◌+◌, ◌++◌, ◌∷◌, ℕ, [], OnOk, List};
ghost use Rattle.std.specs.Str.{bytes_eq};
ghost use Rattle.npf_model.specs.Verdict.{first_where};
ghost use Rattle.npf_expand_values.specs.Place.{ArePlaces};

use npf_types::NoMemory;
use std::alloc::Global;
use std::collections::HashMap;

/// The first place of each of some names, counted from 0.
#[derive(Drop)]
pub(crate) struct Places<'a> {
    first: HashMap<&'a [u8], usize>,
    pub(crate) count: usize,
}

impl<'a> Places<'a> {
    pub(crate) fn new(alloc: Global) -> Places<'a>
        ensures { ArePlaces result [] }
    {
        Places {
            first: HashMap::new(alloc),
            count: 0,
        }
    }

    /// Puts a name behind the others.
    pub(crate) fn add(&mut self, name: &'a [u8]) -> Result<(), NoMemory>
        requires { self.old.count < usize.MAX }
        ensures added { OnOk result ((names : List (List ℕ)) → ArePlaces self.old names
            → ArePlaces self.new (names ++ name.now ∷ [])) }
        ensures counted { OnOk result (self.new.count ≡ self.old.count + 1) }
    {
        if self.first.contains_key(&name) {
            self.count += 1;
            return Ok(());
        }
        self.first.insert(name, self.count)?;
        self.count += 1;
        Ok(())
    }

    /// The first place of a name.
    pub(crate) fn place(&self, name: &[u8]) -> Option<usize>
        ensures { (names : List (List ℕ)) → ArePlaces self.now names
            → result ≡ first_where (bytes_eq name.now) 0 names }
    {
        self.first.get(&name).copied()
    }
}
