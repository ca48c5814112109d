#![tactic(auto)]

ghost use Rattle.std.specs.Prelude.{◌≡◌, ℕ};

// Why a call was refused, as it is published: a number, and the place that the number's row names.
pub trait Fault {
    ghost number: { Self → ℕ };

    ghost place: { Self → ℕ };

    // The published number.
    fn number(&self) -> u8
        ensures { result ≡ number self.now };

    // The published place.
    fn place(&self) -> usize
        ensures { result ≡ place self.now };
}
