// The ribbon that a ribbon file holds.
ghost use Rattle.std.specs.Prelude.{◌≡◌};
ghost use Rattle.grammar.specs.RibbonFile.{ribbon_of_lem};

// The bytes of a ribbon file without a CR LF at its very end.
pub fn ribbon_of<'a>(file: &'a [u8]) -> &'a [u8]
    ensures { result.now ≡ ribbon_of_lem file.now }
{
    file.strip_suffix(b"\r\n").unwrap_or(file)
}
