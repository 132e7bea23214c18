//! Bytes in lower-case hex.

ghost use Rattle.std.specs.Prelude.{OnOk};
ghost use Rattle.std.specs.Io.KnownBytes.{Appends};
ghost use Rattle.hex.specs.Hex.{encode_lower};

use std::io;
use std::io::Write;

/// Writes bytes in lower-case hex.
pub fn write_hex<W: Write>(writer: &mut W, bytes: &[u8]) -> io::Result<()>
    ensures { OnOk result
        (Appends (W.contents writer.old) (W.contents writer.new) (encode_lower bytes.now)) }
{
    for byte in bytes {
        let mut digits = [0; 2];
        // Two digits fit.
        let _ = hex::encode_to_slice([*byte], &mut digits);
        writer.write_all(&digits)?;
    }
    Ok(())
}
