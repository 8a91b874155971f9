//! A clock.

use afp_base::Moment;

/// Tells the moment.
pub trait Clock {
    ghost use Rattle.std.specs.Prelude.{◌≡◌, ℕ, Option, IfSome};

    /// The moment that it always tells, where it is known to tell but one.
    ghost moment_told: { Self → Option ℕ };

    /// The moment now. It cannot fail.
    fn now(&self) -> Moment
        ensures { IfSome (moment_told self.now) (λ moment. result ≡ moment) };
}
