ghost use Rattle.std.specs.Prelude.{◌≤◌, length};

pub mod methods;

// The places of a route as they stand in a plan's file, two bytes each: at most 256.
#[derive(Clone, Copy)]
pub struct Places<'a> {
    pub(crate) bytes: &'a [u8],
    ghost few: { length bytes.now ≤ 512 },
}
