// The pipe table: eight places, each with a pipe or absent.
ghost use Rattle.std.specs.Prelude.{◌≡◌, length};

use crate::pipes::Pipe;

mod methods;

pub const PIPES: usize = 8;

#[derive(Clone, Copy, Debug)]
pub struct Table {
    pub pipes: [Option<Pipe>; PIPES],
    ghost full: { length pipes ≡ 8 },
}
