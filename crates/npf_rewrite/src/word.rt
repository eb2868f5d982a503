// The 16-bit words of a packet, in which the Internet checksum counts (RFC 1071 section 1). Everything is written as words, so that what is
// written and what the sums follow is one list; a time to live is written with the byte that shares its word.
ghost use Rattle.std.specs.Prelude.{◌≡◌, ◌+◌, ◌≤◌, ◌∷◌, [], length};
ghost use Rattle.npf_rewrite.specs.Word.{AllWithin, Rewrites, named_word, word_list};

use npf_fields::put16;

/// A word and its place, in bytes from the record's first.
#[derive(Clone, Copy)]
pub struct WordAt {
    pub at: usize,
    pub value: u16,
}

/// The word at this place, where there is one.
pub fn named_word(at: usize, value: Option<u16>) -> Option<WordAt>
    ensures { result ≡ named_word at value }
{
    match value {
        Some(value) => Some(WordAt { at, value }),
        None => None,
    }
}

/// Writes the words in their order.
pub(crate) fn write_words(bytes: &mut [u8], words: &[WordAt])
    requires { AllWithin (length bytes.old) words.now }
    ensures { Rewrites bytes.old words.now bytes.new }
{
    for word in words {
        write_word(bytes, *word);
    }
}

/// Writes the word, its upper half first.
pub fn write_word(bytes: &mut [u8], word: WordAt)
    requires { word.at + 2 ≤ length bytes.old }
    ensures { Rewrites bytes.old (word ∷ []) bytes.new }
{
    put16(bytes, word.at, word.value);
}

/// Writes the word, where there is one.
pub fn write_named(bytes: &mut [u8], word: Option<WordAt>)
    requires { AllWithin (length bytes.old) (word_list word) }
    ensures { Rewrites bytes.old (word_list word) bytes.new }
{
    if let Some(word) = word {
        write_word(bytes, word);
    }
}
