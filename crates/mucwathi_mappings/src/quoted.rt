//! Texts in quotes, as JSON has them.
ghost use Rattle.std.specs.Prelude.{◌≡◌, ◌++◌, OnOk, map};
ghost use Rattle.mucwathi_mappings.specs.Quoted as spec;
ghost use Rattle.mucwathi_mappings.specs.Quoted.{escaped, escaped_all, quoted, quoted_all, quoted_more};
ghost use Rattle.mucwathi_mappings.specs.Names.{text_of};

use std::alloc::AllocError;

const HEX: &[u8; 16] = b"0123456789abcdef";

// A digit of base 16; of no greater number is one asked for.
fn hex(value: u8) -> u8
    ensures { result ≡ spec.hex value }
{
    HEX.get(value as usize).copied().unwrap_or(0)
}

fn takes_backslash(byte: u8) -> bool
    ensures { result ≡ spec.takes_backslash byte }
{
    byte == b'"' || byte == b'\\'
}

fn add_byte(out: &mut Vec<u8>, byte: u8) -> Result<(), AllocError>
    ensures { OnOk result (out.new.items ≡ out.old.items ++ escaped byte) }
{
    if takes_backslash(byte) {
        out.extend_from_slice(&[b'\\', byte])?;
    } else if byte < 32 {
        let high = hex(byte / 16);
        let low = hex(byte % 16);
        out.extend_from_slice(&[b'\\', b'u', b'0', b'0', high, low])?;
    } else {
        out.push(byte)?;
    }
    Ok(())
}

fn add_bytes(out: &mut Vec<u8>, text: &[u8]) -> Result<(), AllocError>
    ensures { OnOk result (out.new.items ≡ out.old.items ++ escaped_all text.now) }
{
    for byte in text {
        add_byte(out, *byte)?;
    }
    Ok(())
}

/// Adds a text in quotes.
pub(crate) fn add_text(out: &mut Vec<u8>, text: &str) -> Result<(), AllocError>
    ensures { OnOk result (out.new.items ≡ out.old.items ++ quoted text.now) }
{
    out.push(b'"')?;
    add_bytes(out, text.as_bytes())?;
    out.push(b'"')?;
    Ok(())
}

// Adds texts in quotes, a comma before each.
fn add_more(out: &mut Vec<u8>, texts: &[&str]) -> Result<(), AllocError>
    ensures { OnOk result (out.new.items ≡ out.old.items ++ quoted_more (map text_of texts.now)) }
{
    for text in texts {
        out.push(b',')?;
        add_text(out, *text)?;
    }
    Ok(())
}

/// Adds texts in quotes, with commas between.
pub(crate) fn add_texts(out: &mut Vec<u8>, texts: &[&str]) -> Result<(), AllocError>
    ensures { OnOk result (out.new.items ≡ out.old.items ++ quoted_all (map text_of texts.now)) }
{
    let [first, more @ ..] = texts else {
        return Ok(());
    };
    add_text(out, *first)?;
    add_more(out, more)
}
