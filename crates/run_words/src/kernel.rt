//! The kernel as words.
ghost use Rattle.std.specs.Prelude.{◌≡◌, ◌++◌, OnOk};
ghost use Rattle.run_words.specs.Kernel.{kernel_words};

use kernel_core::Kernel;
use state_words::push_kernel;
use std::alloc::AllocError;

/// The words of the kernel: who is alive, the phones, the live calls with their order within each
/// place, and the memory. Where it fails, some of them may have been put there.
///
/// # Errors
///
/// `AllocError` where no memory was found.
pub fn push_kernel_words(kernel: &Kernel, out: &mut Vec<u64>) -> Result<(), AllocError>
    ensures { OnOk result (out.new.items ≡ out.old.items ++ kernel_words kernel.now) }
{
    let board = kernel.board();
    push_kernel(
        board.alive(),
        board.phones(),
        board.boxes(),
        board.spaces(),
        out,
    )
}
