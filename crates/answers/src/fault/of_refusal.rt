// What a fault says of its refusal.
ghost use Rattle.std.specs.Prelude.{◌≡◌};
ghost use Rattle.answers.specs.Faults.{number, word, places};

use super::Fault;

impl Fault {
    pub fn number(self) -> u8
        ensures { result ≡ number self.refusal }
    {
        self.refusal.number()
    }

    pub fn word(self) -> &'static str
        ensures { result.now ≡ word self.refusal }
    {
        self.refusal.word()
    }

    pub fn places(self) -> (Option<u8>, Option<u8>)
        ensures { result ≡ places self.refusal }
    {
        self.refusal.places()
    }
}
