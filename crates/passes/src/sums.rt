ghost use Rattle.std.specs.Prelude.{◌≡◌};
ghost use Rattle.passes.specs.Sums.{sum_over};

// The sum over more bytes of a file, which is nearly always another where they are others.
pub(crate) fn summed(sum: u64, bytes: &[u8]) -> u64
    ensures { result ≡ sum_over sum bytes.now }
{
    let mut next = sum;
    for byte in bytes {
        next = (next % 0x1_0000_0000) * 16_777_619 + u64::from(*byte);
    }
    next
}
