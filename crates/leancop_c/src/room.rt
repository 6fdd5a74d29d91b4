//! The caller's room.

ghost use Rattle.std.specs.Prelude.{◌≡◌};
ghost use Rattle.leancop_c.specs.Told.{placed};

/// Puts the bytes at the front of the room, where they fit; else leaves it as it was.
pub fn place(room: &mut [u8], bytes: &[u8])
    ensures { room.new ≡ placed room.old bytes.now }
{
    if bytes.len() <= room.len() {
        room[..bytes.len()].copy_from_slice(bytes);
    }
}
