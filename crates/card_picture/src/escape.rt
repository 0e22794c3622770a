// Text as XML has it.
ghost use Rattle.std.specs.Prelude.{OnOk, ◌++◌, ◌≡◌};
ghost use Rattle.card_picture.specs.Escapes.{escaped, escaped_byte};

use std::alloc::AllocError;

// Writes a byte, or the reference that stands for it.
fn put_byte(out: &mut Vec<u8>, byte: u8) -> Result<(), AllocError>
    ensures { OnOk result (out.new.items ≡ out.old.items ++ escaped_byte byte) }
{
    match byte {
        b'<' => out.extend_from_slice(b"&lt;")?,
        b'>' => out.extend_from_slice(b"&gt;")?,
        b'&' => out.extend_from_slice(b"&amp;")?,
        b'"' => out.extend_from_slice(b"&quot;")?,
        _ => out.push(byte)?,
    }
    Ok(())
}

/// Writes a text so that a reader of XML or HTML takes it as text, in an element and in an attribute in double quotes: `<`, `>`,
/// `&` and `"` by the references of XML (XML 1.0, section 4.6).
///
/// # Errors
/// `AllocError` where memory is refused.
pub fn put_escaped(out: &mut Vec<u8>, text: &[u8]) -> Result<(), AllocError>
    ensures { OnOk result (out.new.items ≡ out.old.items ++ escaped text.now) }
{
    for byte in text {
        put_byte(out, *byte)?;
    }
    Ok(())
}
