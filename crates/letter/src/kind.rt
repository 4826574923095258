// What every kind of letter answers.
ghost use Rattle.std.specs.Prelude.{◌≡◌};
ghost use Rattle.letter.specs.Heard.{Heard};

use scale::order::Scale;

// A letter is what the recorder writes in one minute: the state of channels 0 to 15.
pub trait Letter {
    // the scale of its values
    type Scale: Scale;

    // what the letter says, a function of the letter alone
    ghost heard: { Self → Heard Self.Scale };

    // The lowest unfit channel, or none if the letter is fit.
    fn unfit(&self) -> Option<u8>
        ensures { result ≡ (heard self.now).unfit };

    // The value of a channel; a number that names no channel has the worst value.
    fn value(&self, channel: u8) -> Self::Scale
        ensures { result ≡ (heard self.now).value channel };
}
