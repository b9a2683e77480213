// The room for a heading line.
ghost use Rattle.std.specs.Prelude.{◌≡◌};
ghost use Rattle.leaf.specs.Leaf.{has_room};

// Whether a heading line of a level, with a text so long, has room at a place of an output so long.
pub fn has_room(at: u64, level: u64, text: u64, out: u64) -> bool
    ensures { result ≡ has_room at level text out }
{
    level <= 6 && at <= out && level < out - at && text <= out - at - (level + 1)
}
