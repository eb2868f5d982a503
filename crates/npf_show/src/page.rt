// A text that grows at its end, piece by piece.
ghost use Rattle.std.specs.Prelude.{◌≡◌, ◌<◌, ◌++◌, [], OnOk};
ghost use Rattle.std.specs.Char.{digit_char};
ghost use Rattle.std.specs.Net.Text.{groups_text, hex};
ghost use Rattle.npf_show.specs.Address.{address_text};
ghost use Rattle.npf_show.specs.Filter.{flag_text, letter_if_set};
ghost use Rattle.npf_show.specs.Piece.{spelled, spaced, glued, line_end, indent, closing_line, Word, Quoted, Number, Address, Sign};

use itoa::Buffer;
use npf_types::{Addr, NoMemory};
use std::alloc::Global;
use std::marker::Model;
use std::net::Ipv6Addr;

/// A text that grows. Contracts see its bytes.
#[derive(Debug, Drop)]
pub(crate) struct Page {
    alloc: Global,
    text: Vec<u8>,
}

impl Model for Page {
    ghost use Rattle.std.specs.Prelude.{ℕ, List};

    ghost Value = { List ℕ };

    ghost view = { λ page. page.text.items };
}

/// The letters of the control bits, from the lowest bit on.
const LETTERS: [(u8, u8); 8] = [
    (b'F', 1),
    (b'S', 2),
    (b'R', 4),
    (b'P', 8),
    (b'A', 16),
    (b'U', 32),
    (b'E', 64),
    (b'W', 128),
];

impl Page {
    pub(crate) fn new(alloc: Global) -> Page
        ensures { result ≡ [] }
    {
        Page {
            alloc,
            text: Vec::new(alloc),
        }
    }

    pub(crate) fn into_text(self) -> Vec<u8>
        ensures { result.items ≡ self }
    {
        let Page { text, .. } = self;
        text
    }

    /// Where the page's text is kept.
    pub(crate) fn alloc(&self) -> Global {
        self.alloc
    }

    /// Bytes as they are.
    fn bytes(&mut self, bytes: &[u8]) -> Result<(), NoMemory>
        ensures { OnOk result (self.new ≡ self.old ++ bytes.now) }
    {
        self.text.extend_from_slice(bytes)?;
        Ok(())
    }

    pub(crate) fn end_line(&mut self) -> Result<(), NoMemory>
        ensures { OnOk result (self.new ≡ self.old ++ spelled line_end) }
    {
        self.bytes(b"\n")?;
        Ok(())
    }

    pub(crate) fn indent(&mut self) -> Result<(), NoMemory>
        ensures { OnOk result (self.new ≡ self.old ++ spelled indent) }
    {
        self.bytes(b"  ")?;
        Ok(())
    }

    /// The line of a closing brace.
    pub(crate) fn close(&mut self) -> Result<(), NoMemory>
        ensures { OnOk result (self.new ≡ self.old ++ spelled closing_line) }
    {
        self.bytes(b"}\n")?;
        Ok(())
    }

    /// A word without a space in front of it.
    pub(crate) fn glued_word(&mut self, text: &[u8]) -> Result<(), NoMemory>
        ensures { OnOk result (self.new ≡ self.old ++ spelled (glued (Word text.now))) }
    {
        self.bytes(text)?;
        Ok(())
    }

    pub(crate) fn word(&mut self, text: &str) -> Result<(), NoMemory>
        ensures { OnOk result (self.new ≡ self.old ++ spelled (spaced (Word text.now))) }
    {
        self.bytes(b" ")?;
        self.bytes(text.as_bytes())?;
        Ok(())
    }

    pub(crate) fn quoted(&mut self, text: &[u8]) -> Result<(), NoMemory>
        ensures { OnOk result (self.new ≡ self.old ++ spelled (spaced (Quoted text.now))) }
    {
        self.bytes(b" \"")?;
        self.bytes(text)?;
        self.bytes(b"\"")?;
        Ok(())
    }

    /// A sign without a space in front of it.
    pub(crate) fn glued_sign(&mut self, sign: &str) -> Result<(), NoMemory>
        ensures { OnOk result (self.new ≡ self.old ++ spelled (glued (Sign sign.now))) }
    {
        self.bytes(sign.as_bytes())?;
        Ok(())
    }

    pub(crate) fn sign(&mut self, sign: &str) -> Result<(), NoMemory>
        ensures { OnOk result (self.new ≡ self.old ++ spelled (spaced (Sign sign.now))) }
    {
        self.bytes(b" ")?;
        self.bytes(sign.as_bytes())?;
        Ok(())
    }

    /// A number without a space in front of it.
    pub(crate) fn glued_number(&mut self, number: u32) -> Result<(), NoMemory>
        ensures { OnOk result (self.new ≡ self.old ++ spelled (glued (Number number))) }
    {
        let mut digits = Buffer::new();
        self.bytes(digits.format(number).as_bytes())?;
        Ok(())
    }

    pub(crate) fn number(&mut self, number: u32) -> Result<(), NoMemory>
        ensures { OnOk result (self.new ≡ self.old ++ spelled (spaced (Number number))) }
    {
        self.bytes(b" ")?;
        self.glued_number(number)?;
        Ok(())
    }

    /// The letters of control bits, without a space in front of them.
    pub(crate) fn glued_flags(&mut self, bits: u8) -> Result<(), NoMemory>
        ensures { OnOk result (self.new ≡ self.old ++ spelled (glued (Word (flag_text bits)))) }
    {
        for (letter, bit) in &LETTERS {
            self.letter(bits, *letter, *bit)?;
        }
        Ok(())
    }

    fn letter(&mut self, bits: u8, letter: u8, bit: u8) -> Result<(), NoMemory>
        ensures { OnOk result (self.new ≡ self.old ++ letter_if_set bits (letter, bit)) }
    {
        if bits & bit != 0 {
            self.bytes(&[letter])?;
        }
        Ok(())
    }

    pub(crate) fn flags(&mut self, bits: u8) -> Result<(), NoMemory>
        ensures { OnOk result (self.new ≡ self.old ++ spelled (spaced (Word (flag_text bits)))) }
    {
        self.bytes(b" ")?;
        self.glued_flags(bits)?;
        Ok(())
    }

    pub(crate) fn address(&mut self, addr: Addr) -> Result<(), NoMemory>
        ensures { OnOk result (self.new ≡ self.old ++ spelled (spaced (Address addr))) }
    {
        self.bytes(b" ")?;
        match addr {
            Addr::V4(bits) => self.dotted(bits),
            Addr::V6(bits) => self.groups(bits),
        }
    }

    fn dotted(&mut self, bits: u32) -> Result<(), NoMemory>
        ensures { OnOk result (self.new ≡ self.old ++ address_text (Addr.V4 bits)) }
    {
        let [a, b, c, d] = bits.to_be_bytes();
        let text = format!(in self.alloc; "{a}.{b}.{c}.{d}")?;
        self.bytes(text.as_bytes())?;
        Ok(())
    }

    #[tactic(auto, unfolding(std::specs::Net::Addr::IsIpv6OfBits))]
    fn groups(&mut self, bits: u128) -> Result<(), NoMemory>
        ensures { OnOk result (self.new ≡ self.old ++ address_text (Addr.V6 bits)) }
    {
        let segments = Ipv6Addr::from_bits(bits).segments();
        self.joined_groups(&segments)?;
        Ok(())
    }

    /// Groups with colons between them.
    fn joined_groups(&mut self, numbers: &[u16]) -> Result<(), NoMemory>
        ensures { OnOk result (self.new ≡ self.old ++ groups_text numbers.now) }
    {
        let Some((first, others)) = numbers.split_first() else {
            return Ok(());
        };
        self.group(*first)?;
        for number in others {
            self.bytes(b":")?;
            self.group(*number)?;
        }
        Ok(())
    }

    /// A group in hexadecimal digits, without leading zeros.
    #[tactic(auto, unfolding(std::specs::Net::Text::hex))]
    fn group(&mut self, number: u16) -> Result<(), NoMemory>
        ensures { OnOk result (self.new ≡ self.old ++ hex number) }
    {
        let digits = [
            hex_digit(number / 0x1000),
            hex_digit(number / 0x100 % 16),
            hex_digit(number / 0x10 % 16),
            hex_digit(number % 16),
        ];
        match number {
            0x1000.. => self.bytes(&digits),
            0x100.. => self.bytes(&digits[1..]),
            0x10.. => self.bytes(&digits[2..]),
            _ => self.bytes(&digits[3..]),
        }
    }
}

/// The hexadecimal digit of a number below 16, in small letters.
pub fn hex_digit(digit: u16) -> u8
    requires { digit < 16 }
    ensures { result ≡ digit_char digit }
{
    if digit < 10 {
        b'0' + digit as u8
    } else {
        b'a' + (digit - 10) as u8
    }
}
