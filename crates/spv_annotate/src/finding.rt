/// What is told of a fault of a module.
#[derive(Clone, Copy)]
pub struct Finding<'t> {
    /// The number of the instruction where it is told, from 0, or how many there are where it is told at the end.
    pub inst: u32,
    /// The verdict line, and the lines behind it.
    pub lines: &'t str,
    /// The ids of the blocks of the walk that shows it, in order; none where no walk does.
    pub walk: &'t [u32],
}
