// A table of names, searched by halves.
ghost use Rattle.std.specs.Prelude.{◌≡◌, true, map};
ghost use Rattle.npf_names.specs.Names.{number_named, reaches, rises};

use std::cmp::Ordering;

/// The number beside a name, in a table whose names rise.
pub(crate) fn number_named(names: &[(&str, u16)], text: &[u8]) -> Option<u16>
    requires rising { rises (map (λ row. (row.0.now, row.1)) names.now) ≡ true }
    ensures { result ≡ number_named (map (λ row. (row.0.now, row.1)) names.now) text.now }
{
    let (before, from) = names.split_at(names.len() / 2);
    let Some(((name, number), behind)) = from.split_first() else {
        return None;
    };
    match name.as_bytes().cmp(text) {
        Ordering::Less => number_named(behind, text),
        Ordering::Equal => Some(*number),
        Ordering::Greater => number_named(before, text),
    }
}

/// The number beside a name, in a table whose names rise and whose numbers fit an octet.
pub(crate) fn octet_named(names: &[(&str, u16)], text: &[u8]) -> Option<u8>
    requires rising { rises (map (λ row. (row.0.now, row.1)) names.now) ≡ true }
    requires small { reaches 255 (map (λ row. (row.0.now, row.1)) names.now) ≡ true }
    ensures { result ≡ number_named (map (λ row. (row.0.now, row.1)) names.now) text.now }
{
    match number_named(names, text) {
        Some(number) => Some(number as u8),
        None => None,
    }
}
