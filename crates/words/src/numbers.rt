// Lane numbers: 32-bit words in two's complement.
ghost use Rattle.std.specs.Prelude.{◌≡◌};
ghost use Rattle.model.specs.Reversal.{negated};

// The number with its sign changed.
pub fn negate(n: u32) -> u32
    ensures { result ≡ negated n }
{
    n.wrapping_neg()
}
