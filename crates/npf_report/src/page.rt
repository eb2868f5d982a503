// Texts and numbers in a page that is written from its end to its beginning: each stands in front of a place, where what follows
// it begins already. So a number needs no room of its own, and none is measured before it is written. All are inlined, so that a
// literal is copied in its known size.
ghost use Rattle.std.specs.Prelude.{◌≡◌, ◌+◌, ◌≤◌, ◌++◌, length, drop};
ghost use Rattle.std.specs.Fmt.{decimal};

use itoa::write_digits;

/// Writes bytes in front of a place, and answers where they begin.
#[inline(always)]
pub(crate) fn write_bytes(page: &mut [u8], end: usize, bytes: &[u8]) -> usize
    requires room { length bytes.now ≤ end }
    requires within { end ≤ length page.old }
    ensures begins { result + length bytes.now ≡ end }
    ensures written { drop result page.new ≡ bytes.now ++ drop end page.old }
{
    let start = end - bytes.len();
    page[start..end].copy_from_slice(bytes);
    start
}

/// Writes a text in front of a place, and answers where it begins.
#[inline(always)]
pub(crate) fn write_text(page: &mut [u8], end: usize, text: &str) -> usize
    requires room { length text.now ≤ end }
    requires within { end ≤ length page.old }
    ensures begins { result + length text.now ≡ end }
    ensures written { drop result page.new ≡ text.now ++ drop end page.old }
{
    write_bytes(page, end, text.as_bytes())
}

/// Writes a number in front of a place, and answers where it begins.
#[inline(always)]
pub(crate) fn write_number(page: &mut [u8], end: usize, number: u64) -> usize
    requires room { 20 ≤ end }
    requires within { end ≤ length page.old }
    ensures order { result ≤ end }
    ensures short { end ≤ result + 20 }
    ensures written { drop result page.new ≡ decimal number ++ drop end page.old }
{
    write_digits(number, page, end)
}

/// Writes a text and then a number in front of a place, and answers where the text begins.
#[inline(always)]
pub(crate) fn write_counted(page: &mut [u8], end: usize, text: &str, number: u64) -> usize
    requires room { length text.now + 20 ≤ end }
    requires within { end ≤ length page.old }
    ensures order { result ≤ end }
    ensures short { end ≤ result + (length text.now + 20) }
    ensures written { drop result page.new ≡ (text.now ++ decimal number) ++ drop end page.old }
{
    let start = write_number(page, end, number);
    write_text(page, start, text)
}
