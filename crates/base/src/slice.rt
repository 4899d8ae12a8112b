// Bytes from one slice into another.
ghost use Rattle.std.specs.Prelude.{◌≡◌, ◌+◌, ◌≤◌, length};
ghost use Rattle.base.specs.Bytes.{overlay};

// Copies all of `from` into `to`, from index `at` on.
pub fn put(to: &mut [u8], at: usize, from: &[u8])
    requires { at + length from.now ≤ length to.old }
    ensures { to.new ≡ overlay to.old at from.now }
{
    let mut i: usize = 0;
    while i < from.len() {
        to[at + i] = from[i];
        i += 1;
    }
}
