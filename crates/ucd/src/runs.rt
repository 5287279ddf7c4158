// Runs of bytes of one kind.
ghost use Rattle.std.specs.Prelude.{◌≡◌, ◌≤◌, length};
ghost use Rattle.std.specs.List.{prefix_len, suffix_len};
ghost use Rattle.ucd.specs.Bytes.{Blank as blank, is, stripped};

fn is_blank(b: u8) -> bool
    ensures { result ≡ is blank b }
{
    b == b' ' || b == b'\t'
}

// How many blanks lead.
pub(crate) fn leading_blanks(bytes: &[u8]) -> usize
    ensures run { result ≡ prefix_len (is blank) bytes.now }
    ensures within { result ≤ length bytes.now }
{
    bytes.iter().take_while(|b| is_blank(**b)).count()
}

// How many blanks trail.
fn trailing_blanks(bytes: &[u8]) -> usize
    ensures run { result ≡ suffix_len (is blank) bytes.now }
    ensures within { result ≤ length bytes.now }
{
    bytes.iter().rev().take_while(|b| is_blank(**b)).count()
}

// The bytes without the blanks around them.
pub(crate) fn strip(bytes: &[u8]) -> &[u8]
    ensures { result.now ≡ stripped bytes.now }
{
    let start = leading_blanks(bytes);
    let end = bytes.len() - trailing_blanks(bytes);
    if start < end { &bytes[start..end] } else { &[] }
}
