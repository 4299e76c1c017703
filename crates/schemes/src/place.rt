ghost use Rattle.std.specs.Prelude.{◌<◌};

pub const KEYS: usize = 16;

pub const TURNS: usize = 32;

pub const DIGEST_LEN: usize = 32;

// A key and a turn, of those that there are.
#[derive(Clone, Copy)]
pub struct Place {
    pub key: u8,
    pub turn: u8,
    ghost key_low: { key < 16 },
    ghost turn_low: { turn < 32 },
}

// What is signed: a digest, at a turn of a key.
#[derive(Clone, Copy)]
pub struct Message<'a> {
    pub key: u8,
    pub turn: u8,
    pub digest: &'a [u8],
}

impl<'a> Message<'a> {
    ghost use Rattle.schemes.specs.Places.{Parts};

    // The key and the turn, and the digest, if there are such and the digest has 32 bytes.
    pub fn parts(&self) -> Option<(Place, &'a [u8; DIGEST_LEN])>
        ensures { Parts self.now.key self.now.turn self.now.digest.now result }
    {
        let Message { key, turn, digest } = *self;
        if usize::from(key) >= KEYS || usize::from(turn) >= TURNS {
            return None;
        }
        Some((Place { key, turn }, digest.as_array()?))
    }
}
