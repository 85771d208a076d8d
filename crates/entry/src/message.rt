// An IAM3 as it was sent.
ghost use Rattle.std.specs.Prelude.{true, ◌+◌, ◌≤◌, length};
ghost use Rattle.frames.specs.Blocks.{blocks_length};
ghost use Rattle.frames.specs.Lengths.{iam3_head_length};

use frames::Iam3;

// An IAM3 whose length was judged: its fields, and all of its bytes. The blocks of its data are there, and the data
// room holds them.
#[derive(Clone, Copy)]
pub struct Sent<'a> {
    pub f: Iam3,
    pub m: &'a [u8],
    pub ghost whole: { iam3_head_length + blocks_length f.custom.blocksize true f.custom.blockcount ≤ length m.now },
    pub ghost in_room: { blocks_length f.custom.blocksize true f.custom.blockcount ≤ 144 },
}
