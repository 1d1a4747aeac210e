// Names of files and other arguments, as they were given and as they are shown (02 a, c, j). Any bytes are taken. Meaning: specs/Names.antt. Refusals: none.
ghost use Rattle.std.specs.Prelude.{◌≡◌};
ghost use Rattle.lines.specs.Names.{same_text, dash_text, shown_of};

// the longest name that the system opens
pub const NAME_BYTES: usize = 4095;

// Says whether two texts have the same bytes.
// Tables: text and wanted are only read. Refusals: none.
pub fn is_same(text: &[u8], wanted: &[u8]) -> bool
    ensures answer { result ≡ same_text text.now wanted.now }
{
    text == wanted
}

// Says whether a name is a dash alone.
// Tables: name is only read. Refusals: none.
pub fn is_dash(name: &[u8]) -> bool
    ensures answer { result ≡ same_text name.now dash_text }
{
    is_same(name, b"-")
}

// Gives a byte of a name as it is shown: no name can end a line and forge the next.
pub(crate) fn shown(byte: u8) -> u8
    ensures byte { result ≡ shown_of byte }
{
    let control = byte.is_ascii_control();
    if control { b'?' } else { byte }
}
