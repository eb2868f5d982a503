// The classes of bytes.
ghost use Rattle.std.specs.Prelude.{◌≡◌};
ghost use Rattle.npf_lexer.specs.ByteClass.{byte_class, is_run_byte, is_variable_start, is_variable_byte, is_string_byte, is_line_byte};

/// What a byte begins, outside comments and strings.
#[derive(Clone, Copy, Debug, PartialEq, Eq)]
pub(crate) enum ByteClass {
    /// It parts tokens.
    Blank,
    LineFeed,
    Semicolon,
    /// Before a line feed it parts tokens, and else it begins nothing.
    Backslash,
    /// It and the rest of its line are skipped.
    Comment,
    Quote,
    Dollar,
    /// A number, an address or a word, or the sign `:`.
    Run,
    /// A sign, or nothing.
    Other,
}

pub(crate) fn byte_class(byte: u8) -> ByteClass
    ensures { result ≡ byte_class byte }
{
    match byte {
        b' ' | b'\t' | b'\r' => ByteClass::Blank,
        b'\n' => ByteClass::LineFeed,
        b';' => ByteClass::Semicolon,
        b'\\' => ByteClass::Backslash,
        b'#' => ByteClass::Comment,
        b'"' => ByteClass::Quote,
        b'$' => ByteClass::Dollar,
        _ if is_run_byte(byte) => ByteClass::Run,
        _ => ByteClass::Other,
    }
}

/// Whether the byte may stand in every run.
pub(crate) fn is_run_byte(byte: u8) -> bool
    ensures { result ≡ is_run_byte byte }
{
    byte.is_ascii_alphanumeric() || byte == b'_' || byte == b'.' || byte == b':'
}

/// Whether a variable's name may begin with the byte.
pub(crate) fn is_variable_start(byte: u8) -> bool
    ensures { result ≡ is_variable_start byte }
{
    byte.is_ascii_alphabetic() || byte == b'_'
}

pub(crate) fn is_variable_byte(byte: u8) -> bool
    ensures { result ≡ is_variable_byte byte }
{
    byte.is_ascii_alphanumeric() || byte == b'_'
}

pub(crate) fn is_string_byte(byte: u8) -> bool
    ensures { result ≡ is_string_byte byte }
{
    byte != b'"' && byte != b'\n'
}

/// Whether the byte belongs to the line that it follows in.
pub(crate) fn is_line_byte(byte: u8) -> bool
    ensures { result ≡ is_line_byte byte }
{
    byte != b'\n'
}
