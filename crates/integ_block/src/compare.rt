ghost use Rattle.std.specs.Prelude.{◌≡◌};
ghost use Rattle.gds_law.specs.Record.{is_below};

/// Whether a key stands before another one.
pub(crate) fn is_below(a: &[u8], b: &[u8]) -> bool
    ensures { result ≡ is_below a.now b.now }
{
    a.cmp(b).is_lt()
}
