// A sum that stops at the largest number of 32 bits.
ghost use Rattle.std.specs.Prelude.{◌^◌, ◌<◌};

#[derive(Clone, Copy)]
pub struct Total {
    pub value: u32,
    ghost fits: { value < 2 ^ 32 },
}
