// User characters: a fixed memory of one place for each code from 20h on.
ghost use Rattle.std.specs.Prelude.{◌≡◌, length};

pub mod calls;

#[derive(Clone, Copy)]
pub struct Users {
    places: [Option<[u8; 5]>; 224],
    ghost all: { length places ≡ 224 },
}
