//! The buffer that a run pulls into.
ghost use Rattle.std.specs.Prelude.{◌≡◌, IfOk, vec_len};

use std::alloc::{AllocError, Global};

/// How many bytes are pulled at once.
pub const READ_SIZE: usize = 4_096;

/// A buffer for pulls, of 4,096 bytes, or the error where there is no such memory.
pub fn read_buffer(alloc: Global) -> Result<Vec<u8>, AllocError>
    ensures { IfOk result (λ buffer. vec_len buffer ≡ 4096) }
{
    vec![in alloc; 0u8; READ_SIZE]
}
