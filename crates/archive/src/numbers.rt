// Numbers of two bytes, the low byte first.
ghost use Rattle.std.specs.Prelude.{◌≡◌, ◌++◌, ◌+◌, ◌≤◌, length, take};
ghost use Rattle.archive.specs.Format.{max_number, two_bytes};
ghost use Rattle.archive.specs.Reading.{number_at};

// The greatest of them.
pub(crate) const MAX_NUMBER: usize = 65535;

// The number that stands at a place.
pub(crate) fn number_at(file: &[u8], at: usize) -> usize
    requires { at + 2 ≤ length file.now }
    ensures { (result ≡ number_at file.now at) × (result ≤ max_number) }
{
    usize::from(u16::from_le_bytes([file[at], file[at + 1]]))
}

// Writes a number at a place: what stands before the place is kept. It fits a u16, into which a usize has no From.
pub(crate) fn put_number(out: &mut [u8], at: usize, number: usize)
    requires { (at + 2 ≤ length out.old) × (number ≤ max_number) }
    ensures { take (at + 2) out.new ≡ take at out.old ++ two_bytes number }
{
    out[at..at + 2].copy_from_slice(&(number as u16).to_le_bytes());
}
