// All are inlined, so that a literal is copied in its known size.
ghost use Rattle.std.specs.Prelude.{◌≡◌, ◌++◌, OnOk};
ghost use Rattle.std.specs.Fmt.{decimal};

use itoa::Buffer;
use npf_types::NoMemory;

/// Appends bytes.
#[inline(always)]
pub fn write_bytes(into: &mut Vec<u8>, bytes: &[u8]) -> Result<(), NoMemory>
    ensures { OnOk result (into.new.items ≡ into.old.items ++ bytes.now) }
{
    into.extend_from_slice(bytes)?;
    Ok(())
}

/// Appends a text.
#[inline(always)]
pub fn write_text(into: &mut Vec<u8>, text: &str) -> Result<(), NoMemory>
    ensures { OnOk result (into.new.items ≡ into.old.items ++ text.now) }
{
    into.extend_from_slice(text.as_bytes())?;
    Ok(())
}

/// Appends a number.
#[inline(always)]
pub fn write_number(into: &mut Vec<u8>, number: u64) -> Result<(), NoMemory>
    ensures { OnOk result (into.new.items ≡ into.old.items ++ decimal number) }
{
    if number < 10 {
        into.push(b'0' + number as u8)?;
        return Ok(());
    }
    let mut digits = Buffer::new();
    into.extend_from_slice(digits.format(number).as_bytes())?;
    Ok(())
}

/// Appends a text and then a number.
#[inline(always)]
pub fn write_counted(into: &mut Vec<u8>, text: &str, number: u64) -> Result<(), NoMemory>
    ensures { OnOk result (into.new.items ≡ into.old.items ++ (text.now ++ decimal number)) }
{
    write_text(into, text)?;
    write_number(into, number)
}
