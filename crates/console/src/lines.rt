// Lines of words and numbers.
ghost use Rattle.std.specs.Prelude.{◌++◌, ◌∷◌, [], OnOk, decimal};
ghost use Rattle.std.specs.Io.KnownBytes.{Appends};

use std::io;
use std::io::Write;

// A tab and a number.
pub fn put_number<W: Write>(out: &mut W, number: u64) -> io::Result<()>
    ensures { OnOk result (Appends (W.contents out.old) (W.contents out.new) (9 ∷ decimal number)) }
{
    write!(out, "\t{number}")
}

// Some words, a tab, a number and LF.
pub fn say<W: Write>(out: &mut W, what: &[u8], number: u64) -> io::Result<()>
    ensures { OnOk result (Appends (W.contents out.old) (W.contents out.new) (what.now ++ (9 ∷ decimal number) ++ 10 ∷ [])) }
{
    out.write_all(what)?;
    put_number(out, number)?;
    out.write_all(b"\n")
}
