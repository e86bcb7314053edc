// Rulings from their sixteen bytes, and back.
ghost use Rattle.std.specs.Prelude.{◌≡◌};

use super::Ruling;

impl From<[u8; 16]> for Ruling {
    ghost from_gives = { λ bytes ruling. ruling.bytes ≡ bytes };

    fn from(bytes: [u8; 16]) -> Ruling {
        Ruling { bytes }
    }
}

impl Ruling {
    pub fn bytes(self) -> [u8; 16]
        ensures { result ≡ self.bytes }
    {
        self.bytes
    }
}
