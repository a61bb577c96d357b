// The fields of a record: names, and fields of any plain bytes.
ghost use Rattle.basis.specs.Tests.{Decides};
ghost use Rattle.csv_text.specs.Layout.{Name, NameByte, FieldByte};
ghost use Rattle.csv_text.specs.Reader.{Run, Field};

// a to z, 0 to 9 and -.
fn in_name(byte: u8) -> bool
    ensures { Decides result (NameByte byte) }
{
    matches!(byte, b'a'..=b'z' | b'0'..=b'9' | b'-')
}

// Any byte but a comma, quote, CR or LF.
fn in_field(byte: u8) -> bool
    ensures { Decides result (FieldByte byte) }
{
    !matches!(byte, b',' | b'"' | b'\r' | b'\n')
}

// How many bytes of a field a text begins with.
pub fn plain_bytes(rest: &[u8]) -> usize
    ensures { Run FieldByte rest.now result }
{
    rest.iter()
        .position(|b| !in_field(*b))
        .unwrap_or(rest.len())
}

// The length of the name in front of the next comma.
pub fn name(rest: &[u8]) -> Option<usize>
    ensures { Field Name 44 rest.now result }
{
    let used = rest.iter().position(|b| !in_name(*b))?;
    if used == 0 || used > 32 || rest[used] != b',' {
        return None;
    }
    Some(used)
}
