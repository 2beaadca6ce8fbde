// Dockets that pass tests 1 to 8.

ghost use Rattle.std.specs.Prelude.{◌≡◌, Ok};
ghost use Rattle.shape.specs.Shape.{shape_of};

use format::Header;

// The bytes of a docket that passes tests 1 to 8, and its header. A Result that holds one is taken apart by `match` or `let .. else`: for `?` on it
// the check of today makes no proof.
#[derive(Clone, Copy)]
pub struct Docket<'a> {
    pub bytes: &'a [u8],
    pub header: Header,
    ghost sound: { shape_of bytes.now ≡ Ok header },
}
