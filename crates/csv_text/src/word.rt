// Fixed words of a sheet: the header, and the end of a record.
ghost use Rattle.basis.specs.Tests.{Decides};
ghost use Rattle.csv_text.specs.Reader.{AtEnd, Headed};

// The header's length.
pub const HEADER: usize = 39;

// Whether a record may end here.
pub fn at_end(rest: &[u8]) -> bool
    ensures { Decides result (AtEnd rest.now) }
{
    rest.is_empty() || rest.starts_with(b"\r\n")
}

// Whether the first record is the header.
pub fn headed(text: &[u8]) -> bool
    ensures { Decides result (Headed text.now) }
{
    text.starts_with(b"package,version,weight,needs,constraint") && at_end(&text[HEADER..])
}
