//! Texts as they are meant: each quote of the line that is doubled stands once.
ghost use Rattle.std.specs.Prelude.{◌≡◌, ◌≤◌, ◌+◌, ◌++◌, IsTrue, length};
ghost use Rattle.std.specs.List.{list_all};
ghost use Rattle.arrayvec.specs.ArrayString.{array_string_len};
ghost use Rattle.hg_model.specs.Value.{is_printable};
ghost use Rattle.hg_scan.specs.Cutting.{undoubled, behind_byte};

use arrayvec::ArrayString;

/// Printable bytes as a text.
fn as_text(bytes: &[u8]) -> &str
    requires { IsTrue (list_all is_printable bytes.now) }
    ensures { result.now ≡ bytes.now }
{
    unsafe { str::from_utf8_unchecked(bytes) }
}

/// What is left behind a byte of a text: a quote takes the one behind it along.
#[inline(always)]
fn behind_byte(byte: u8, behind: &[u8]) -> &[u8]
    ensures { result.now ≡ behind_byte byte behind.now }
{
    match behind {
        [_, rest @ ..] if byte == b'\'' => rest,
        _ => behind,
    }
}

/// Puts a text in which no quote is doubled behind `out`.
pub fn push_plain(bytes: &[u8], out: &mut ArrayString<4096>)
    requires printable { IsTrue (list_all is_printable bytes.now) }
    requires room { array_string_len out.old + length bytes.now ≤ 4096 }
    ensures { out.new.bytes ≡ out.old.bytes ++ bytes.now }
{
    out.push_str(as_text(bytes));
}

/// Puts a text behind `out`, each of its quotes once.
pub fn push_undoubled(bytes: &[u8], out: &mut ArrayString<4096>)
    requires printable { IsTrue (list_all is_printable bytes.now) }
    requires room { array_string_len out.old + length (undoubled bytes.now) ≤ 4096 }
    ensures { out.new.bytes ≡ out.old.bytes ++ undoubled bytes.now }
{
    let mut rest = bytes;
    while let [first, behind @ ..] = rest {
        out.push(*first as char);
        rest = behind_byte(*first, behind);
    }
}

/// How many bytes a text has, each of its quotes once.
pub fn undoubled_len(bytes: &[u8]) -> usize
    ensures { result ≡ length (undoubled bytes.now) }
{
    let mut len = 0;
    let mut rest = bytes;
    while let [first, behind @ ..] = rest {
        len += 1;
        rest = behind_byte(*first, behind);
    }
    len
}
