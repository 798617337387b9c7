//! Bytes and words in hexadecimal digits.

ghost use Rattle.std.specs.Prelude.{◌≡◌, ◌<◌, ◌++◌, OnOk};
ghost use Rattle.std.specs.List.{flat_map};
ghost use Rattle.report_text.specs.Digits.{hex_digit, hex2, hex8};

use mind_base::NoMemory;

fn digit(n: u8) -> u8
    requires { n < 16 }
    ensures { result ≡ hex_digit n }
{
    if n < 10 { b'0' + n } else { b'a' - 10 + n }
}

/// A byte in two hexadecimal digits.
fn put_byte(out: &mut Vec<u8>, n: u8) -> Result<(), NoMemory>
    ensures { OnOk result (out.new.items ≡ out.old.items ++ hex2 n) }
{
    out.extend_from_slice(&[digit(n / 16), digit(n % 16)])?;
    Ok(())
}

/// A word in eight hexadecimal digits.
#[tactic(auto, unfolding(crate::specs::Digits::hex8))]
pub fn put_word(out: &mut Vec<u8>, n: u32) -> Result<(), NoMemory>
    ensures { OnOk result (out.new.items ≡ out.old.items ++ hex8 n) }
{
    put_byte(out, (n / 0x0100_0000) as u8)?;
    put_byte(out, (n / 0x1_0000 % 256) as u8)?;
    put_byte(out, (n / 0x100 % 256) as u8)?;
    put_byte(out, (n % 256) as u8)?;
    Ok(())
}

/// Each byte in two hexadecimal digits.
pub fn put_bytes(out: &mut Vec<u8>, bytes: &[u8]) -> Result<(), NoMemory>
    ensures { OnOk result (out.new.items ≡ out.old.items ++ flat_map hex2 bytes.now) }
{
    for byte in bytes {
        put_byte(out, *byte)?;
    }
    Ok(())
}
