// The words of a line.
ghost use Rattle.std.specs.Prelude.{◌≡◌, ◌↔◌, ℕ, List, IsTrue, MatchOption, position};
ghost use Rattle.npf_table.specs.Line.{is_blank};
ghost use Rattle.npf_ctl_script.specs.Words.{HasNoWord, IsComment, IsOnlyWord, IsSkipped, behind_word, leading_word};

use npf_table::trim_start;

/// The first word of the text, empty where it has none, and what stands behind it.
pub(crate) fn split_word(text: &[u8]) -> (&[u8], &[u8])
    ensures word { result.0.now ≡ leading_word text.now }
    ensures behind { result.1.now ≡ behind_word text.now }
{
    let text = trim_start(text);
    match blank_place(text) {
        Some(at) => text.split_at(at),
        None => text.split_at(text.len()),
    }
}

/// The first place at which a blank stands.
fn blank_place(text: &[u8]) -> Option<usize>
    ensures { result ≡ position is_blank text.now }
{
    text.iter().position(|byte| is_blank(*byte))
}

fn is_blank(byte: u8) -> bool
    ensures { result ≡ is_blank byte }
{
    byte == b' ' || byte == b'\t'
}

/// Whether the text has nothing but blanks.
pub(crate) fn has_no_word(text: &[u8]) -> bool
    ensures { IsTrue result ↔ HasNoWord text.now }
{
    trim_start(text).is_empty()
}

/// The only word of the text, None where another one follows it. It is empty where the text has none.
pub(crate) fn only_word(text: &[u8]) -> Option<&[u8]>
    ensures { MatchOption result ((word : List ℕ) → ¬ IsOnlyWord text.now word) (λ word. IsOnlyWord text.now word.now) }
{
    let (word, behind) = split_word(text);
    if has_no_word(behind) {
        return Some(word);
    }
    None
}

/// Whether the line is no command: a comment, or blank.
pub(crate) fn is_skipped(line: &[u8]) -> bool
    ensures { IsTrue result ↔ IsSkipped line.now }
{
    begins_comment(line) || has_no_word(line)
}

fn begins_comment(line: &[u8]) -> bool
    ensures { IsTrue result ↔ IsComment line.now }
{
    line.first() == Some(&b'#')
}
