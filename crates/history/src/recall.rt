// The recall: what makes any display new again, whatever it was given before.
ghost use Rattle.std.specs.Prelude.{◌≡◌};
ghost use Rattle.history.specs.Recall.{recall};

// The bytes to send.
pub fn recall_bytes() -> &'static [u8; 11]
    ensures { result.now ≡ recall }
{
    b"\x18\x18\x18\x18\x18\x18\x1b\x3d\x02\x1b\x40"
}
