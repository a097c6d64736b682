// A file with its header's numbers.
ghost use Rattle.file_blocks.specs.Due.{as_head};
ghost use Rattle.file_blocks.specs.Fills.{Whole};

use crate::plan::Head;

// The bytes of a file and the numbers that its header says: none is above its largest, and the file has the blocks that they ask for.
#[derive(Clone, Copy)]
pub struct JobFile<'a> {
    pub bytes: &'a [u8],
    pub head: Head,
    ghost whole: { Whole bytes.now (as_head head) },
}
