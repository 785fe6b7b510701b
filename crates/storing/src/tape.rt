// The writer of values.
ghost use Rattle.std.specs.Prelude.{◌≡◌, ◌≤◌, length};
ghost use Rattle.rules.specs.Step.{overlay};

// Writes values at the front of a part that a caller lends: what is free of a tape or output, the values of a run, a copy of a buffer.
pub fn write_values(values: &[u64], free: &mut [u64])
    requires { length values.now ≤ length free.old }
    ensures { free.new ≡ overlay values.now free.old }
{
    // no `copy_from_slice`: with it the library for C would need memmove from outside
    for i in 0..values.len() {
        free[i] = values[i];
    }
}
