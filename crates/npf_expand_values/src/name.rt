// Names of texts that the grammar holds to be names.
ghost use Rattle.std.specs.Prelude.{◌≡◌, ◌∷◌, []};
ghost use Rattle.npf_types.specs.Named.{named};

use npf_types::Name;

/// The name of a text; of a text that is none, the name that stands for it.
pub fn name_of(text: &[u8]) -> Name
    ensures { result ≡ named text.now }
{
    match Name::of(text) {
        Some(name) => name,
        None => stand_in(),
    }
}

fn stand_in() -> Name
    ensures { result ≡ named (97 ∷ []) }
{
    Name::of(b"a").unwrap()
}
