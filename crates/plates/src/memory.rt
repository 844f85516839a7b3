// The bytes of a plate.
ghost use Rattle.std.specs.Prelude.{◌≡◌, ◌+◌, ◌*◌, ◌≤◌, length};
ghost use Rattle.plates.specs.Plates.{Plated};

// Writes the flag of a cell and its bytes.
pub(crate) fn put(memory: &mut [u8], at: usize, bytes: &[u8])
    requires long { length bytes.now ≡ 24 }
    requires inside { 25 * at + 25 ≤ length memory.old }
    ensures { Plated memory.old memory.new at bytes.now }
{
    let first = 25 * at;
    memory[first] = 1;
    memory[first + 1..first + 25].copy_from_slice(bytes);
}
