ghost use Rattle.std.specs.Prelude.{◌≡◌, ◌+◌, ◌≤◌, length};
ghost use Rattle.std.proofs.Math.Seq.{slice};
ghost use Rattle.std.specs.Int.{w16};
ghost use Rattle.std.proofs.Common.{to_z};
ghost use Rattle.records.specs.Numbers.{number_of};

// A signed number of two bytes.
pub(crate) fn get_i16(file: &[u8], at: usize) -> i16
    requires { at + 2 ≤ length file.now }
    ensures { result ≡ to_z w16 (number_of (slice at (at + 2) file.now)) }
{
    i16::from_le_bytes([file[at], file[at + 1]])
}

// An unsigned number of four. Both stand here, as `from_le_bytes` is a function of each type, and no trait has it.
pub(crate) fn get_u32(file: &[u8], at: usize) -> u32
    requires { at + 4 ≤ length file.now }
    ensures { result ≡ number_of (slice at (at + 4) file.now) }
{
    u32::from_le_bytes([file[at], file[at + 1], file[at + 2], file[at + 3]])
}
