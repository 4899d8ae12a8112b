// A stored block of 512 bytes: 480, and their SHA-256 behind them.
#![tactic(auto)]

ghost use Rattle.std.specs.Prelude.{◌≡◌, length, take};
ghost use Rattle.base.specs.Logic.{Decides};
ghost use Rattle.block.specs.Sealed.{body_size, block_size, sealed, IsSealed};

use base::slice::put;
use hash::digest_of;
use octets::same;

// The bytes of a block, and those of them that are checked.
pub const SIZE: usize = 512;

pub const BODY: usize = 480;

// Is the check that of the bytes before it?
pub fn is_checked(block: &[u8]) -> bool
    requires { length block.now ≡ block_size }
    ensures { Decides result (IsSealed block.now) }
{
    let digest = digest_of(&block[..BODY]);
    same(&block[BODY..], &digest)
}

// Puts the check behind the bytes that it is of.
pub fn seal(block: &mut [u8])
    requires { length block.old ≡ block_size }
    ensures { block.new ≡ sealed (take body_size block.old) }
{
    let digest = digest_of(&block[..BODY]);
    put(block, BODY, &digest);
}
