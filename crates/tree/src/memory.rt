// Numbers in lent memory, the less significant bytes first.
ghost use Rattle.std.specs.Prelude.{◌≡◌, ◌+◌, ◌≤◌, ◌<◌, ◌^◌, length, replicate};
ghost use Rattle.tree.specs.Memory.{number_in, Stored};

// The number in the N bytes at j.
pub fn read<const N: usize>(ns: &[u8], j: usize) -> usize
    requires { (j + N ≤ length ns.now) × (N ≤ 8) }
    ensures { (result ≡ number_in N ns.now j) × (result < 256 ^ N) }
{
    let mut bytes = [0; 8];
    bytes[..N].copy_from_slice(&ns[j..j + N]);
    usize::from_le_bytes(bytes)
}

// Stores v in the N bytes at j.
pub fn store<const N: usize>(ns: &mut [u8], j: usize, v: usize)
    requires { (j + N ≤ length ns.old) × (N ≤ 8) × (v < 256 ^ N) }
    ensures { Stored (number_in N) N j v ns.old ns.new }
{
    ns[j..j + N].copy_from_slice(&v.to_le_bytes()[..N]);
}

// Clears a memory.
pub fn clear(m: &mut [u8])
    ensures { m.new ≡ replicate (length m.old) 0 }
{
    m.fill(0);
}
