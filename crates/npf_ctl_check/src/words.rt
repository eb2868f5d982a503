// The words of a line, parted as those of a script are.
ghost use Rattle.std.specs.Prelude.{◌≡◌, ◌↔◌, IsTrue, position};
ghost use Rattle.npf_table.specs.Line.{is_blank};
ghost use Rattle.npf_ctl_script.specs.Words.{IsSkipped, behind_word, leading_word};

use npf_table::trim_start;

/// The first word of the text, empty where it has none, and what stands behind it.
pub(crate) fn split_word(text: &[u8]) -> (&[u8], &[u8])
    ensures word { result.0.now ≡ leading_word text.now }
    ensures behind { result.1.now ≡ behind_word text.now }
{
    let text = trim_start(text);
    match blank_place(text) {
        Some(at) => text.split_at(at),
        None => text.split_at(text.len()),
    }
}

/// The first place at which a blank stands.
fn blank_place(text: &[u8]) -> Option<usize>
    ensures { result ≡ position is_blank text.now }
{
    text.iter().position(|byte| is_blank(*byte))
}

fn is_blank(byte: u8) -> bool
    ensures { result ≡ is_blank byte }
{
    byte == b' ' || byte == b'\t'
}

/// Whether the line expects nothing: a comment, or blank.
pub(crate) fn is_skipped(line: &[u8]) -> bool
    ensures { IsTrue result ↔ IsSkipped line.now }
{
    line.first() == Some(&b'#') || trim_start(line).is_empty()
}
