//! Files that are read whole, one after the other.
ghost use Rattle.std.specs.Prelude.{◌≡◌, ◌⊎◌, ℕ, Some, None, IfErr, IfOk, IfSome, IsErrOf, option_map, slice_get};
ghost use Rattle.spv_commands.specs.Part.{Known};
ghost use Rattle.spv_commands.specs.declared.trouble.Trouble.TheVariants.{File, Memory};

use spv_commands::Trouble;
use std::alloc::Global;

/// Files that are known by their numbers, from 0.
pub trait Files {
    // What the file of a number holds, where it is known: its bytes, or none where it does not open or a read of it
    // fails.
    ghost known: { Self → ℕ → Known };

    /// Opens the file of a number, and reads all its bytes.
    ///
    /// # Errors
    ///
    /// `File` where it does not open or a read of it failed, `Memory` where a growth of memory was refused.
    fn read(&mut self, alloc: Global, number: usize) -> Result<Vec<u8>, Trouble>
        ensures given { IfOk result (λ v. IfSome (known self.old number) (λ file. file ≡ Some v.items)) }
        ensures unread { IsErrOf result File → IfSome (known self.old number) (λ file. file ≡ None) }
        ensures only { IfErr result (λ t. (t ≡ File) ⊎ (t ≡ Memory)) }
        ensures kept { (n : ℕ) → known self.new n ≡ known self.old n };
}

/// Files that stand in memory. One that is None does not open, and so do those of numbers that are too great.
#[derive(Clone, Copy)]
pub struct InMemory<'a> {
    /// The bytes of each.
    pub files: &'a [Option<&'a [u8]>],
}

impl<'a> Files for InMemory<'a> {
    ghost known = { λ s n. option_map (λ file. option_map (λ bytes. bytes.now) file) (slice_get s.files.now n) };

    fn read(&mut self, alloc: Global, number: usize) -> Result<Vec<u8>, Trouble> {
        match self.files.get(number) {
            Some(Some(bytes)) => Ok(Vec::from_slice(alloc, bytes)?),
            _ => Err(Trouble::File),
        }
    }
}
