/// Which instructions a module may have.
#[derive(Clone, Copy, PartialEq, Eq)]
pub enum Profile {
    /// Those of the profile.
    Own,
    /// Those that a kernel of OpenCL can use, too.
    OpenCl,
}
